//! The value, taken out.
ghost use Rattle.std.specs.Prelude.{◌≡◌};

use std::marker::Model;

/// The value that a seat has taken out, seen as the value itself.
#[derive(Drop)]
pub struct Held<B> {
    pub(crate) value: B,
}

impl<B> Model for Held<B> {
    ghost Value = { B };

    ghost coded = { B.code };

    ghost view = { λ h. h.value };
}

impl<B> Held<B> {
    pub(crate) fn of(value: B) -> Held<B>
        ensures { result ≡ value }
    {
        Held { value }
    }

    pub(crate) fn into_value(self) -> B
        ensures { result ≡ self }
    {
        let Held { value } = self;
        value
    }
}
