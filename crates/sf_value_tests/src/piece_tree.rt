//! Trees of units.
ghost use Rattle.std.specs.Prelude.{◌≤◌};

use sf_piece_tree::{PieceTree, Unit, Visitor};
use sf_types::{Mem, TryCopy};
use std::alloc::Global;
use std::test::*;

// Equal bytes: which one, and how many.
#[derive(Drop)]
struct Letters {
    letter: u32,
    count: u64,
    ghost some: { 1 ≤ count },
}

impl TryCopy for Letters {
    fn copy(&self) -> Mem<Letters> {
        Ok(Letters {
            letter: self.letter,
            count: self.count,
        })
    }
}

impl Unit for Letters {
    ghost use Rattle.sf_value_tests.specs.Letters.{letters_content, letters_add};

    ghost content = { λ letters. letters_content letters.letter letters.count };

    ghost weight = { λ letters. letters.count };

    ghost weights_add = { λ whole front back is. letters_add whole.letter whole.count front.letter front.count back.letter back.count is };

    fn size(&self) -> u64 {
        self.count
    }

    fn weight(&self) -> u64 {
        self.count
    }

    fn front(&self, n: u64) -> Mem<Letters> {
        Ok(Letters {
            letter: self.letter,
            count: n,
        })
    }

    fn back(&self, n: u64) -> Mem<Letters> {
        Ok(Letters {
            letter: self.letter,
            count: self.count - n,
        })
    }
}

// A visitor that writes down what it is shown: of each unit a digit for the letter, and one for the number of bytes. It goes
// on until it has seen the letter 9.
#[derive(Drop)]
struct Writer {
    digits: u64,
}

impl Visitor<Letters> for Writer {
    ghost use Rattle.std.specs.Prelude.{true, ◌≡◌, nat_eq, not};

    ghost visits = { λ before letters from after more. more ≡ not (nat_eq letters.letter 9) };

    fn visit(&mut self, letters: &Letters, from: u64) -> bool {
        let shown = u64::from(letters.letter)
            .wrapping_mul(10)
            .wrapping_add(letters.count - from);
        self.digits = self.digits.wrapping_mul(100).wrapping_add(shown);
        letters.letter != 9
    }
}

// What a walk from a byte on shows.
fn written(tree: &PieceTree<Letters>, at: u64) -> (u64, bool) {
    let mut writer = Writer { digits: 0 };
    let more = tree.visit_from(at, &mut writer);
    (writer.digits, more)
}

// Puts equal bytes last, or first, where there are few.
fn push(tree: &mut PieceTree<Letters>, letter: u32, count: u64, last: bool) -> Mem<()> {
    if tree.size() < 1_000 && 1 <= count && count < 1_000 {
        let letters = Letters { letter, count };
        if last {
            tree.push_back(letters)?;
        } else {
            tree.push_front(letters)?;
        }
    }
    Ok(())
}

// The units 1 1 1, 2 2 and 3.
fn three_units(alloc: Global) -> Mem<PieceTree<Letters>> {
    let mut tree = PieceTree::one(
        alloc,
        Letters {
            letter: 2,
            count: 2,
        },
    )?;
    push(&mut tree, 3, 1, true)?;
    push(&mut tree, 1, 3, false)?;
    Ok(tree)
}

// A tree made by so many joins of a tree of one unit of one byte on the right.
fn joined_units(alloc: Global, units: u32) -> Mem<PieceTree<Letters>> {
    let mut tree = PieceTree::empty(alloc);
    for letter in 0..units {
        let one = PieceTree::one(alloc, Letters { letter, count: 1 })?;
        if tree.size() < 4_096 && one.size() == 1 {
            tree = tree.join(&one)?;
        }
    }
    Ok(tree)
}

// The unit in which a byte lies, and the place in it.
fn found(tree: &PieceTree<Letters>, at: u64) -> Option<(u32, u64)> {
    match tree.find(at) {
        None => None,
        Some((letters, offset)) => Some((letters.letter, offset)),
    }
}

#[test]
fn a_tree_of_4096_units(rt: HostRuntime) -> Result<(), Fail> {
    let tree = joined_units(rt.alloc(), 4_096)?;
    assert_eq!(rt; tree.pieces(), 4_096);
    assert_eq!(rt; tree.size(), 4_096);
    assert_eq!(rt; tree.weight(), 4_096);
    assert!(rt; tree.depth() >= 13);
    assert!(rt; tree.depth() <= 25);
    assert_eq!(rt; found(&tree, 4_095), Some((4_095, 0)));
    assert_eq!(rt; found(&tree, 4_096), None);
    Ok(())
}

#[test]
fn a_tree_cut_and_turned_round(rt: HostRuntime) -> Result<(), Fail> {
    let tree = joined_units(rt.alloc(), 4_096)?;
    assert_eq!(rt; tree.size(), 4_096);
    let (first, second) = tree.cut(1_000)?;
    assert_eq!(rt; first.size(), 1_000);
    assert_eq!(rt; second.size(), 3_096);
    let turned = second.join(&first)?;
    assert_eq!(rt; turned.size(), 4_096);
    assert_eq!(rt; turned.pieces(), 4_096);
    assert_eq!(rt; found(&turned, 0), Some((1_000, 0)));
    assert_eq!(rt; found(&turned, 4_095), Some((999, 0)));
    assert!(rt; turned.depth() <= 25);
    Ok(())
}

#[test]
fn units_are_pushed_and_shown(rt: HostRuntime) -> Result<(), Fail> {
    let mut tree = three_units(rt.alloc())?;
    assert_eq!(rt; written(&tree, 0), (13_22_31, true));
    assert_eq!(rt; written(&tree, 1), (12_22_31, true));
    assert_eq!(rt; written(&tree, 3), (22_31, true));
    assert_eq!(rt; written(&tree, 4), (21_31, true));
    assert_eq!(rt; written(&tree, 6), (0, true));
    push(&mut tree, 9, 1, true)?;
    push(&mut tree, 8, 1, true)?;
    assert_eq!(rt; written(&tree, 5), (31_91, false));
    assert_eq!(rt; written(&tree.copy()?, 0), (13_22_31_91, false));
    Ok(())
}

#[test]
fn parts_and_ends(rt: HostRuntime) -> Result<(), Fail> {
    let mut tree = three_units(rt.alloc())?;
    assert_eq!(rt; tree.size(), 6);
    let (first, second) = tree.cut(3)?;
    assert_eq!(rt; written(&first, 0), (13, true));
    assert_eq!(rt; written(&second, 0), (22_31, true));
    let mut second = tree.split_off(4)?;
    assert_eq!(rt; written(&tree, 0), (13_21, true));
    assert_eq!(rt; written(&second, 0), (21_31, true));
    assert_eq!(rt; (tree.pieces(), tree.size()), (2, 4));
    tree.replace_first(Letters {
        letter: 7,
        count: 5,
    });
    assert_eq!(rt; (second.pieces(), second.size()), (2, 2));
    second.replace_last(Letters {
        letter: 8,
        count: 4,
    });
    assert_eq!(rt; (tree.size(), second.size()), (6, 5));
    tree.append(second);
    assert_eq!(rt; written(&tree, 0), (75_21_21_84, true));
    let first = tree.pop_first();
    assert_eq!(rt; first.map(|letters| letters.letter), Some(7));
    let last = tree.pop_last();
    assert_eq!(rt; last.map(|letters| letters.letter), Some(8));
    assert_eq!(rt; written(&tree, 0), (21_21, true));
    Ok(())
}
