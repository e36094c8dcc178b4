// The pages in the frames of a run, one to a frame.
ghost use Rattle.std.specs.Prelude.{◌≡◌, ◌<◌, None};
ghost use Rattle.arrayvec.specs.ArrayVec.{array_vec_len};
ghost use Rattle.policy.specs.Runs.{instead as instead_of, replaced, swapped};

use arrayvec::ArrayVec;

// What stands in a frame once a page has come for another.
fn instead(old: u32, gone: u32, page: u32) -> u32
    ensures { result ≡ instead_of gone page old }
{
    if old == gone { page } else { old }
}

// Puts a page in the place of another.
fn replace(pages: &mut [u32], gone: u32, page: u32)
    ensures { pages.new ≡ replaced gone page pages.old }
{
    for place in pages.iter_mut() {
        *place = instead(*place, gone, page);
    }
}

// A page comes into the frame of the leaving one, or into a free one.
pub(crate) fn swap(held: &mut ArrayVec<u32, 64>, page: u32, leaving: Option<u32>)
    requires { leaving ≡ None → array_vec_len held.old < 64 }
    ensures { held.new.items ≡ swapped held.old.items page leaving }
{
    match leaving {
        Some(gone) => replace(held.as_mut_slice(), gone, page),
        None => held.push(page),
    }
}
