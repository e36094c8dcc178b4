use crate::problem::Problem;
use office::read_number;
use policy::FrameCount;

// An office's policy and its frame count.
#[derive(Clone, Copy)]
pub(crate) enum Settings {
    TwoQ(FrameCount),
    LruTwo(FrameCount, u16),
}

fn number(word: &str) -> Result<u32, Problem> {
    read_number(word.as_bytes()).ok_or(Problem::Settings)
}

// A frame count, or what is wrong with it.
fn frames(word: &str) -> Result<FrameCount, Problem> {
    let number = number(word)?;
    FrameCount::new(number).map_err(|refusal| Problem::Frames(number, refusal))
}

// A correlated reference period, which fits 16 bits.
fn period(word: &str) -> Result<u16, Problem> {
    u16::try_from(number(word)?).map_err(|_error| Problem::Settings)
}

// Reads `2q FRAMES` or `lru2 FRAMES crp PERIOD`; with no words it is `2q 16`.
pub(crate) fn read_settings(words: &[String]) -> Result<Settings, Problem> {
    match words {
        [] => Ok(Settings::TwoQ(frames("16")?)),
        [policy, count] if policy.as_str() == "2q" => Ok(Settings::TwoQ(frames(count.as_str())?)),
        [policy, count, word, crp] if policy.as_str() == "lru2" && word.as_str() == "crp" => {
            let frames = frames(count.as_str())?;
            Ok(Settings::LruTwo(frames, period(crp.as_str())?))
        }
        _ => Err(Problem::Settings),
    }
}
