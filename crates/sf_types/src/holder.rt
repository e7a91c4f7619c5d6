//! Who holds contents.
ghost use Rattle.std.specs.Prelude.{◌≡◌, nat_eq};
ghost use Rattle.std.specs.Cmp.{partial_equiv_from_equiv, on_per, on_equiv};
ghost use Rattle.std.specs.Cmp.Lexicographic.{pointwise, nat_list_eq_equiv};
ghost use Rattle.sf_types.specs.Inside.Holders.{key_of, input_of, same_input};

use crate::copy::TryCopy;
use crate::list::List;
use crate::memory::Mem;
use crate::name::Name;
use std::hash::{Hash, Hasher};

/// Who holds contents.
#[derive(Drop)]
pub enum Holder {
    /// A row's version, by the number of the commit that made it.
    Version(Name, u64),
    /// A session, with its values.
    Session(u16),
    /// A session's standing promise, which holds the births that it found.
    Promise(u16),
}

/// Holders, in order.
pub type HolderList = List<Holder>;

// Holders are compared by their keys.
impl PartialEq for Holder {
    ghost eq = { λ a b. pointwise nat_eq (key_of a) (key_of b) };

    ghost laws = { on_per key_of (partial_equiv_from_equiv nat_list_eq_equiv) };

    fn eq(&self, other: &Holder) -> bool {
        match (self, other) {
            (Holder::Version(name, commit), Holder::Version(other, made)) => {
                *commit == *made && *name == *other
            }
            (Holder::Session(session), Holder::Session(other)) => *session == *other,
            (Holder::Promise(session), Holder::Promise(other)) => *session == *other,
            _ => false,
        }
    }
}

impl Eq for Holder {
    ghost laws = { on_equiv key_of nat_list_eq_equiv };
}

impl Hash for Holder {
    ghost hash_input = { input_of };

    ghost respects_eq = { same_input };

    fn hash<H: Hasher>(&self, state: &mut H) {
        match self {
            Holder::Version(name, commit) => {
                name.as_bytes().hash(state);
                state.write_u64(*commit);
            }
            Holder::Session(session) => state.write_u16(*session),
            Holder::Promise(session) => state.write_u16(*session),
        }
    }
}

impl TryCopy for Holder {
    fn copy(&self) -> Mem<Holder> {
        match self {
            Holder::Version(name, commit) => Ok(Holder::Version(name.copy()?, *commit)),
            Holder::Session(session) => Ok(Holder::Session(*session)),
            Holder::Promise(session) => Ok(Holder::Promise(*session)),
        }
    }
}
