// What a mark makes of a page, the worse after the better.
#[derive(Clone, Copy, PartialEq, Eq, PartialOrd, Ord, Debug)]
pub enum Defect {
    Worn,
    Lost,
}

// One mark of a defect list.
#[derive(Clone, Copy, PartialEq, Eq, Debug)]
pub struct Mark {
    pub page: u32,
    pub defect: Defect,
}
