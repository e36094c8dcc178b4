ghost use Rattle.book.specs.declared.grant.Kind.{Kind};
ghost use Rattle.book.specs.declared.grant.Kind.TheVariants.{Reading, Updating};

use book::Kind;

// What a grant is for.
pub trait Purpose {
    ghost KIND: { Kind };

    const KIND: Kind;
}

// To read a page.
pub struct ToRead;

impl Purpose for ToRead {
    ghost KIND = { Reading };

    const KIND: Kind = Kind::Reading;
}

// To read a page and to write it.
pub struct ToUpdate;

impl Purpose for ToUpdate {
    ghost KIND = { Updating };

    const KIND: Kind = Kind::Updating;
}
