use std::alloc::AllocError;

// A replacement policy written again from its rules, to hold the proved one against.
pub(crate) trait Simulator<P> {
    // Whether a page is resident; a hit is noted.
    fn hit(&mut self, page: u32, t: u32) -> Result<bool, AllocError>;

    // The page that has to leave, among listed pages.
    fn victim(&self, listed: &[u32], t: u32) -> Option<u32>;

    // A page comes in, in the place of a leaving one or of none.
    fn admit(&mut self, page: u32, leaving: Option<u32>, t: u32) -> Result<(), AllocError>;

    // Whether the policy remembers the same.
    fn agrees(&self, policy: &P) -> bool;
}

// Takes the last entry that a test accepts out of a list.
pub(crate) fn take_out<T, F: Fn(&T) -> bool>(list: &mut Vec<T>, accepts: F) -> Option<T>
    requires { F.IsAlwaysCallable accepts }
{
    let place = list.iter().rposition(|entry| accepts(entry))?;
    Some(list.remove(place))
}
