//! A holder that stands in a map by itself.
ghost use Rattle.std.specs.Prelude.{◌≡◌, nat_eq, refl, Some};
ghost use Rattle.std.specs.Cmp.{partial_equiv_from_equiv, on_per, on_equiv, on_po};
ghost use Rattle.std.specs.Cmp.Lexicographic.{pointwise, nat_list_eq_equiv, texts_po, texts_ties};
ghost use Rattle.sf_types.specs.Inside.Holders.{key_of, holder_cmp, holder_cmp_total, holder_cmp-IsAntisymmetric, input_of, same_input};

use sf_room_map::{RoomKey, RowKey};
use sf_types::Holder;
use std::cmp::Ordering;
use std::hash::{Hash, Hasher};
use std::marker::Model;

// What a holder is, with the bytes of a row's name in itself.
#[derive(Drop)]
enum KeptHolder {
    Version(RowKey, u64),
    Session(u16),
    Promise(u16),
}

// A holder as a key, seen as the holder. To make one of a holder that is only looked at takes no memory.
#[derive(Drop)]
pub struct HolderKey {
    kept: KeptHolder,
}

impl Model for HolderKey {
    ghost use Rattle.sf_types.specs.contracts.holder.Holder as holder;
    ghost use Rattle.sf_types.specs.declared.holder.Holder.{Holder};
    ghost use Rattle.sf_lifetimes.specs.Inside.Keys.{kept_holder};

    ghost Value = { Holder };

    ghost coded = { holder.the_row.coded };

    ghost view = { λ k. kept_holder k.kept };
}

impl HolderKey {
    // The key of a holder.
    pub fn of(holder: &Holder) -> HolderKey
        ensures { result ≡ holder.now }
    {
        let kept = match holder {
            Holder::Version(name, commit) => KeptHolder::Version(RowKey::of(name), *commit),
            Holder::Session(session) => KeptHolder::Session(*session),
            Holder::Promise(session) => KeptHolder::Promise(*session),
        };
        HolderKey { kept }
    }
}

// Keys are compared and hashed as the holders.
impl PartialEq for HolderKey {
    ghost eq = { λ a b. pointwise nat_eq (key_of a) (key_of b) };

    ghost laws = { on_per key_of (partial_equiv_from_equiv nat_list_eq_equiv) };

    fn eq(&self, other: &HolderKey) -> bool {
        match (&self.kept, &other.kept) {
            (KeptHolder::Version(name, commit), KeptHolder::Version(other, made)) => {
                *commit == *made && *name == *other
            }
            (KeptHolder::Session(session), KeptHolder::Session(other)) => *session == *other,
            (KeptHolder::Promise(session), KeptHolder::Promise(other)) => *session == *other,
            _ => false,
        }
    }
}

impl Eq for HolderKey {
    ghost laws = { on_equiv key_of nat_list_eq_equiv };
}

impl PartialOrd for HolderKey {
    ghost partial_cmp = { λ a b. Some (holder_cmp a b) };

    ghost laws = { on_po key_of texts_po };

    fn partial_cmp(&self, other: &HolderKey) -> Option<Ordering> {
        Some(self.cmp(other))
    }
}

impl Ord for HolderKey {
    ghost cmp = { holder_cmp };

    ghost total = { holder_cmp_total };

    ghost matches_partial_cmp = { λ a b. refl };

    ghost matches_eq = { λ a b. texts_ties (key_of a) (key_of b) };

    fn cmp(&self, other: &HolderKey) -> Ordering {
        match (&self.kept, &other.kept) {
            (KeptHolder::Version(name, commit), KeptHolder::Version(other, made)) => {
                commit.cmp(made).then(name.cmp(other))
            }
            (KeptHolder::Session(session), KeptHolder::Session(other)) => session.cmp(other),
            (KeptHolder::Promise(session), KeptHolder::Promise(other)) => session.cmp(other),
            (KeptHolder::Version(..), _) => Ordering::Less,
            (KeptHolder::Session(_), KeptHolder::Promise(_)) => Ordering::Less,
            _ => Ordering::Greater,
        }
    }
}

impl Hash for HolderKey {
    ghost hash_input = { input_of };

    ghost respects_eq = { same_input };

    fn hash<H: Hasher>(&self, state: &mut H) {
        match &self.kept {
            KeptHolder::Version(name, commit) => {
                name.as_bytes().hash(state);
                state.write_u64(*commit);
            }
            KeptHolder::Session(session) => state.write_u16(*session),
            KeptHolder::Promise(session) => state.write_u16(*session),
        }
    }
}

impl RoomKey for HolderKey {
    ghost exact = { holder_cmp-IsAntisymmetric };
}
