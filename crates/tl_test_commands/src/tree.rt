//! Trees that are copied and written, and shapes.

use crate::texts::FORK;
use std::process::Abort;
use std::test::Fail;
use tl_tree::{Record, Shape, Tree, TreeFault, USUAL_NODES, read_tree, write_tree};

/// A record with the least number, the numbers around 0 and the greatest number.
const WIDE: Record = [i64::MIN, -1, 0, i64::MAX, 1, -2, i64::MAX, i64::MIN];

/// The texts of a tree and of the tree with that record.
const TEXTS: &str =
    "{\"parents\":[0,0,0],\"records\":[[0,0,0,0,0,0,0,0],[10,0,0,0,0,0,0,0],[20,0,0,0,0,0,0,0]]}
{\"parents\":[0,0,0],\"records\":[[0,0,0,0,0,0,0,0],[-9223372036854775808,-1,0,9223372036854775807,1,-2,9223372036854775807,-9223372036854775808],[20,0,0,0,0,0,0,0]]}";

/// Changes a tree; its copy stays as it is. The texts of both are read again.
fn change(rt: &(impl Abort + AllocGlobal), tree: &mut Tree, copy: &Tree) -> Result<(), Fail> {
    let alloc = rt.alloc();
    assert_eq!(rt; (copy.shape().node_count(), copy.shape().kids(0)), (3, 2));
    assert_eq!(rt; tree.records().len(), 3);
    tree.put_at(1, WIDE);
    assert_eq!(rt; tree.record_at(1), WIDE);
    let changed = write_tree(alloc, tree)?;
    let texts = format!(in alloc; "{}\n{changed}", write_tree(alloc, copy)?)?;
    assert_eq!(rt; texts.as_str(), TEXTS);
    let again = read_tree(alloc, &changed, USUAL_NODES)?;
    assert_eq!(rt; again.records(), tree.records());
    Ok(())
}

fn copy_and_change(rt: &(impl Abort + AllocGlobal), tree: &mut Tree) -> Result<(), Fail> {
    let copy = tree.copy(rt.alloc())?;
    change(rt, tree, &copy)
}

#[test]
fn a_tree_is_read_copied_and_written(rt: HostRuntime) -> Result<(), Fail> {
    let mut tree = read_tree(rt.alloc(), FORK, USUAL_NODES)?;
    copy_and_change(&rt, &mut tree)
}

// ---- shapes

#[test]
fn a_shape_has_at_most_as_many_nodes_as_it_may(rt: HostRuntime) -> Result<(), Fail> {
    assert_eq!(rt;
        Shape::new(rt.alloc(), &[0; 4096], USUAL_NODES)?.kids(0),
        4095
    );
    let more = Shape::new(rt.alloc(), &[0; 4097], USUAL_NODES);
    assert_eq!(rt; more.err(), Some(TreeFault::TooMany));
    assert_eq!(rt; Shape::new(rt.alloc(), &[0; 4097], 4097)?.kids(0), 4096);
    assert_eq!(rt;
        Shape::new(rt.alloc(), &[0; 3], 2).err(),
        Some(TreeFault::TooMany)
    );
    Ok(())
}

/// The paths of a shape in which 0 has the children 1 and 3, 1 has 2 and 4, and 4 has 5.
fn ways(rt: &impl Abort, shape: &Shape) {
    assert_eq!(rt; shape.node_count(), 6);
    for (node, parent, kids) in [
        (0, 0, 2),
        (1, 0, 2),
        (2, 1, 0),
        (3, 0, 0),
        (4, 1, 1),
        (5, 4, 0),
    ] {
        assert_eq!(rt;
            (shape.parent(node), shape.kids(node)),
            (parent, kids),
            "{node}"
        );
    }
    for (node, number, kid) in [(0, 0, 1), (0, 1, 3), (1, 0, 2), (1, 1, 4), (4, 0, 5)] {
        assert!(rt; number < shape.kids(node));
        assert_eq!(rt; shape.kid(node, number), kid, "{node}");
    }
    for (upper, lower, above) in [
        (0, 5, true),
        (1, 5, true),
        (5, 5, true),
        (3, 5, false),
        (2, 5, false),
        (5, 1, false),
    ] {
        assert_eq!(rt; shape.is_above(upper, lower), above, "{upper} {lower}");
    }
}

#[test]
fn a_shape_knows_its_ways(rt: HostRuntime) -> Result<(), Fail> {
    let shape = Shape::new(rt.alloc(), &[0, 0, 1, 0, 1, 4], USUAL_NODES)?;
    ways(&rt, &shape);
    Ok(())
}
