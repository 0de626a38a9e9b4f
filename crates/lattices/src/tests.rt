// The lattices at small tables.
use crate::Lattice;
use crate::number_set::NumberSet;
use crate::pair::Pair;

// The laws of a join at two values.
fn joins<L: Lattice>(x: L, y: L) -> bool {
    let top = x.join(y);
    x.below(top) && y.below(top) && top.equal(y.join(x)) && L::bottom().below(x)
}

#[test]
fn answers(rt: HostRuntime) {
    let no = false;
    let yes = true;
    assert!(rt; joins(no, no) && joins(no, yes) && joins(yes, no) && joins(yes, yes));
    assert!(rt; no.below(yes) && !yes.below(no));
    assert_eq!(rt; bool::told_height(), 1);
}

#[test]
fn sets(rt: HostRuntime) {
    let low = NumberSet::empty().insert(0).insert(5);
    let high = NumberSet::empty().insert(63).insert(64);
    assert!(rt; joins(low, high) && joins(high, low) && joins(low, low));
    assert!(rt; low.contains(5) && !low.contains(4) && high.contains(63) && !high.contains(64));
    assert_eq!(rt; high.len(), 1);
    assert_eq!(rt; high.remove(64), high);
    assert_eq!(rt; high.remove(63), NumberSet::empty());
    assert_eq!(rt; low.next_from(1), Some(5));
    assert_eq!(rt; low.next_from(6), None);
    assert_eq!(rt; high.next_from(64), None);
    assert_eq!(rt; NumberSet::told_height(), 64);
}

#[test]
fn ascending(rt: HostRuntime) {
    let set = NumberSet::empty().insert(63).insert(2).insert(40);
    assert!(rt; set.numbers().is_sorted() && set.numbers().all(|number| set.contains(number)));
    assert_eq!(rt; set.numbers().last(), Some(63));
}

#[test]
fn pairs(rt: HostRuntime) {
    let set = NumberSet::empty().insert(7);
    let left = Pair {
        first: true,
        second: NumberSet::empty(),
    };
    let right = Pair {
        first: false,
        second: set,
    };
    assert!(rt; joins(left, right) && joins(right, right));
    assert!(rt; !left.below(right) && !right.below(left) && !left.equal(right));
    assert_eq!(rt; Pair::<bool, NumberSet>::told_height(), 65);
}
