ghost use Rattle.book.specs.ClockLaws.{ClockLaws};
ghost use Rattle.book.specs.GrantLaws.{GrantLaws};
ghost use Rattle.book.specs.PageLaws.{PageLaws};

// How many bytes a page has. The laws of the book's pages hold, with this number.
pub fn page_bytes() -> u32
    ensures { PageLaws result }
{
    512
}

// How many grants a page has out at most. The laws of the book's grants hold, with this number.
pub fn most_grants() -> u32
    ensures { GrantLaws result }
{
    255
}

// The last time that the clock shows. The laws of the book's clock hold, with this number.
pub fn last_time() -> u32
    ensures { ClockLaws result }
{
    4294967295
}
