//! Values cut and put together.
ghost use Rattle.std.specs.Prelude.{◌≡◌, IfOk, OnOk, OnErr};
ghost use Rattle.sf_chunk_map.specs.Maps.{spliced, sliced, LiesWithin, StaysWithin};

use crate::counting::{lower_pieces, make_places, raise_pieces};
use crate::cuts::cut_out;
use crate::map::Map;
use crate::seams::{append_new, append_old};
use sf_types::{Mem, TryCopy};

impl Map {
    /// So many bytes from one on go, and those of another value come in their place. Answers the value that went, with the
    /// same choice. The choice stays. It costs in proportion to the pieces that go and come, and to the depth; no piece of
    /// the rest is copied. After want of memory the value is as before.
    pub fn splice_in(&mut self, at: u64, remove: u64, with: Map) -> Mem<Map>
        requires within { LiesWithin self.old at remove }
        requires most { StaysWithin self.old remove with.bytes }
        ensures ok { OnOk result (self.new ≡ spliced self.old at remove with.bytes) }
        ensures removed { IfOk result (λ removed. removed ≡ sliced self.old at remove) }
        ensures err { OnErr result (self.new ≡ self.old) }
    {
        let _len = self.len();
        let _with = with.len();
        make_places(&mut self.counts, &with.tree)?;
        let cut = cut_out(self.counts.allocator(), &mut self.tree, at, remove)?;
        raise_pieces(&mut self.counts, &with.tree);
        lower_pieces(&mut self.counts, &cut.middle);
        let Map {
            tree,
            counts: _,
            choice: _,
        } = with;
        append_new(&mut self.tree, tree);
        append_old(&mut self.tree, cut.tail);
        Ok(Map {
            tree: cut.middle,
            counts: cut.counts,
            choice: self.choice,
        })
    }

    /// A value with so many bytes from one on gone, and those of another in their place. Its choice is that of this one. It
    /// is a copy, and then `splice_in`.
    pub fn splice(&self, at: u64, remove: u64, with: &Map) -> Mem<Map>
        requires within { LiesWithin self.now at remove }
        requires most { StaysWithin self.now remove with.now.bytes }
        ensures { IfOk result (λ map. map ≡ spliced self.now at remove with.now.bytes) }
    {
        let mut map = self.copy()?;
        let _removed = map.splice_in(at, remove, with.copy()?)?;
        Ok(map)
    }

    /// So many bytes from one on stay. The choice stays. It costs in proportion to the pieces that stay, and to the depth.
    /// After want of memory the value is as before.
    pub fn slice_in(&mut self, at: u64, len: u64) -> Mem<()>
        requires { LiesWithin self.old at len }
        ensures ok { OnOk result (self.new ≡ sliced self.old at len) }
        ensures err { OnErr result (self.new ≡ self.old) }
    {
        let _len = self.len();
        let cut = cut_out(self.counts.allocator(), &mut self.tree, at, len)?;
        self.tree = cut.middle;
        self.counts = cut.counts;
        Ok(())
    }
}
