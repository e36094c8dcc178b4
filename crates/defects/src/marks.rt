ghost use Rattle.std.specs.Prelude.{◌≡◌, ◌<◌, true, length, is_some, None, MatchOption, slice_index_or};
ghost use Rattle.defects.specs.Defects.{said_of, mark_of, taken, worst, marked_state};
ghost use Rattle.defects.specs.Spots.{Spot, Unmarked, Filled};

use crate::mark::{Defect, Mark};
use page::{Origin, State};

// What one place says of a page.
fn said(mark: Option<Mark>, page: u32) -> Option<Defect>
    ensures { result ≡ said_of mark page }
{
    mark.filter(|mark| mark.page == page)
        .map(|mark| mark.defect)
}

// The mark of a page.
pub(crate) fn mark_of(marks: &[Option<Mark>], page: u32) -> Option<Defect>
    ensures { result ≡ mark_of marks.now page }
{
    marks.iter().find_map(|mark| said(*mark, page))
}

// The worse of a mark and a state below.
pub(crate) fn worse(mark: Option<Defect>, page: u32, state: State) -> State
    ensures { result ≡ marked_state mark page state }
{
    match mark {
        None => state,
        Some(Defect::Lost) => State::Lost(Origin::here(page)),
        Some(Defect::Worn) => match state {
            State::Lost(_) => state,
            _ => State::Worn(Origin::here(page)),
        },
    }
}

// The worse of an old mark, if there is one, and a new one.
pub(crate) fn worse_mark(old: Option<Defect>, new: Defect) -> Defect
    ensures { result ≡ worst old new }
{
    old.map_or(new, |old| old.max(new))
}

// The first place that has a mark of the page.
fn marked_place(marks: &[Option<Mark>], page: u32) -> Option<usize>
    ensures { MatchOption result (Unmarked marks.now (length marks.now) page) (λ i. (i < length marks.now) × (is_some (said_of (slice_index_or marks.now i None) page) ≡ true) × Unmarked marks.now i page) }
{
    marks.iter().position(|mark| said(*mark, page).is_some())
}

// The first free place.
fn free_place(marks: &[Option<Mark>]) -> Option<usize>
    ensures { MatchOption result (Filled marks.now (length marks.now)) (λ i. (i < length marks.now) × (slice_index_or marks.now i None ≡ None)) }
{
    marks.iter().position(|mark| mark.is_none())
}

// Where a mark of the page may go: the place of its mark, or else a free one.
pub(crate) fn spot(marks: &[Option<Mark>], page: u32) -> Option<usize>
    ensures { MatchOption result ((mark_of marks.now page ≡ None) × (taken marks.now ≡ length marks.now)) (Spot marks.now page) }
{
    marked_place(marks, page).or_else(|| free_place(marks))
}
