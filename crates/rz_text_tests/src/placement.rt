//! Places at ties.
use crate::comparing::compare;
use rz_config::Volume;
use rz_place::place;
use std::test::Fail;

/// Two clusters, whose numbers and whose nodes' numbers do not rise.
const VOLUME: &str = "{\"layout\":0,\"bsize\":4096,\"clusters\":[\
    {\"cid\":7,\"nodes\":[{\"sid\":9,\"cells\":8},{\"sid\":8,\"cells\":8},{\"sid\":6,\"cells\":8},{\"sid\":5,\"cells\":8},{\"sid\":4,\"cells\":8}]},\
    {\"cid\":3,\"nodes\":[{\"sid\":1,\"cells\":8},{\"sid\":2,\"cells\":8},{\"sid\":3,\"cells\":8},{\"sid\":10,\"cells\":8}]}]}";

/// Free cells of the nine nodes, and the cluster and the nodes that a file gets.
const CASES: [([u64; 9], u16, [u16; 4]); 6] = [
    ([1, 1, 1, 1, 1, 0, 2, 1, 2], 3, [2, 10, 3, 1]),
    ([1, 1, 1, 2, 1, 0, 2, 1, 2], 7, [5, 4, 6, 8]),
    ([1, 1, 1, 1, 0, 0, 2, 1, 2], 3, [2, 10, 3, 1]),
    ([0, 0, 0, 0, 0, 0, 0, 0, 0], 3, [1, 2, 3, 10]),
    ([8, 0, 0, 0, 1, 2, 2, 2, 2], 7, [9, 4, 5, 6]),
    ([0, 0, 0, 0, 8, u64::MAX, u64::MAX, 1, 1], 3, [1, 2, 3, 10]),
];

#[test]
fn breaks_ties_by_the_least_number(rt: HostRuntime) -> Result<(), Fail> {
    let volume = Volume::read(rt.alloc(), VOLUME).expect(&rt, "a volume");
    assert!(rt; volume.node_count() == 9);
    for (free, cid, places) in CASES {
        let (chosen, nodes) = place(&volume, &free);
        compare(
            &rt,
            &(chosen, nodes.list()),
            &(cid, places.as_slice()),
            free,
        );
    }
    drop(volume);
    Ok(())
}
