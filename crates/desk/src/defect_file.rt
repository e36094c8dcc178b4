ghost use Rattle.std.specs.Prelude.{◌≡◌, ℕ, IfOk, List, MatchResult, map, vec_items};
ghost use Rattle.std.specs.Iterator.{AlwaysYields, IsFinite};
ghost use Rattle.std.specs.Iterator.Runs.{CountFits};
ghost use Rattle.std.specs.Str.Lines.{lines as lines_of};
ghost use Rattle.desk.specs.DefectFiles.{blamed, marks_in, Parsed, Unparsed};

use crate::problem::BookProblem;
use defects::Mark;
use office::{NoMark, read_defect_line};
use std::alloc::{AllocError, Global};
use volume::MarkRefused;

// A mark, and the number of the line that it stands on.
#[derive(Clone, Copy, PartialEq, Eq, Debug)]
pub struct LineMark {
    pub line: usize,
    pub mark: Mark,
}

// The marks of a defect file, in their order.
#[derive(Drop)]
pub struct DefectFile {
    pub name: String,
    pub marks: Vec<LineMark>,
}

// Reads the lines that an iterator gives, one after another: each is a mark, blank or a comment. It stops at the
// first that is none of these.
fn of_lines<'a, I: Iterator<Item = &'a str> + Drop>(
    heap: Global,
    name: String,
    lines: I,
) -> Result<DefectFile, BookProblem>
    requires can { I.can_next lines }
    requires ends { IsFinite (I.remaining lines) }
    requires fits { CountFits I.next_gives I.remaining 0 lines }
    ensures { (ls : List (List ℕ)) → AlwaysYields I.next_gives (λ l. l.now) lines ls → MatchResult result (Parsed name (marks_in ls)) (Unparsed name (marks_in ls)) }
{
    let mut marks = Vec::new(heap);
    // A loop, since the file's name moves into the problem of the first bad line.
    for (before, words) in lines.enumerate() {
        let line = before + 1;
        let Ok(read) = read_defect_line(words.as_bytes()) else {
            return Err(BookProblem::Line(name, line, NoMark));
        };
        if let Some(mark) = read {
            marks
                .push(LineMark { line, mark })
                // A push fails for memory alone; the derived From has no contract for the proof.
                .map_err(|_full| BookProblem::Memory(AllocError))?;
        }
    }
    Ok(DefectFile { name, marks })
}

impl DefectFile {
    // Reads a defect file's text, line by line: each line is a mark, blank or a comment.
    pub fn read(heap: Global, name: String, text: &str) -> Result<DefectFile, BookProblem>
        ensures { MatchResult result (Parsed name (marks_in (lines_of text.now))) (Unparsed name (marks_in (lines_of text.now))) }
    {
        of_lines(heap, name, text.lines())
    }

    // Reads the lines of a defect file, each of which is a mark, blank or a comment.
    pub fn parse(heap: Global, name: String, lines: &[&str]) -> Result<DefectFile, BookProblem>
        ensures { MatchResult result (Parsed name (marks_in (map (λ l. l.now) lines.now))) (Unparsed name (marks_in (map (λ l. l.now) lines.now))) }
    {
        of_lines(heap, name, lines.iter().copied())
    }

    // The marks without their lines.
    pub fn marks(&self, heap: Global) -> Result<Vec<Mark>, AllocError>
        ensures { IfOk result (λ v. vec_items v ≡ map (λ m. m.mark) (vec_items self.now.marks)) }
    {
        self.marks.iter().map(|marked| marked.mark).collect(heap)
    }

    // The problem that a refused mark is, with the line that it stands on.
    pub fn blame(self, refused: MarkRefused) -> BookProblem
        ensures { result ≡ blamed self refused }
    {
        let line = self.marks.get(refused.at).map_or(0, |marked| marked.line);
        BookProblem::Mark(self.name, line, refused.refusal)
    }
}
