use basics::node::NodeNumber;
use basics::refusal::Refusal;
use images::pack::{pack, unpack};
use images::packed::PackedStore;
use plans::plan::Plan;
use std::test::Fail;
use stores::store::NodeStore;

// A plan of three nodes in a chain.
fn chain(first: u8, second: u8, third: u8) -> Result<Plan, Refusal> {
    let mut plan = Plan::new();
    plan.add(first, &[])?;
    plan.add(second, &[NodeNumber(0)])?;
    plan.add(third, &[NodeNumber(1)])?;
    Ok(plan)
}

// The lowest and the highest value of a width.
fn ends(width: u8) -> (i32, i32) {
    let half = 1 << (width.clamp(2, 16) - 1);
    (0 - half, half - 1)
}

#[test]
fn packs_every_width_with_its_ends(rt: HostRuntime) -> Result<(), Fail> {
    for width in 2..=16 {
        let plan = chain(width, width, width)?;
        let (low, high) = ends(width);
        let mut image = [0xff; 8];
        pack(&plan, &[low, high, low], &mut image)?;
        let mut values = [7; 4];
        unpack(&plan, &image, &mut values)?;
        assert_eq!(rt; values, [low, high, low, 7]);
    }
    Ok(())
}

#[test]
fn refuses_what_does_not_fit(rt: HostRuntime) -> Result<(), Fail> {
    let plan = chain(2, 7, 16)?;
    let mut image = [0xff; 5];
    assert_eq!(rt;
        pack(&plan, &[2, 0, 0], &mut image),
        Err(Refusal::OutOfRange)
    );
    assert_eq!(rt;
        pack(&plan, &[0, 0, 32768], &mut image),
        Err(Refusal::OutOfRange)
    );
    assert_eq!(rt; pack(&plan, &[2, 0], &mut image), Err(Refusal::ShortBuffer));
    assert_eq!(rt;
        pack(&plan, &[0, 0, 0], &mut image[0..3]),
        Err(Refusal::ShortBuffer)
    );
    assert_eq!(rt; image, [0xff; 5]);
    pack(&plan, &[0, 0, 0], &mut image)?;
    assert_eq!(rt;
        image,
        [0, 0, 0, 0, 0xff],
        "the bytes past the fields stay, the spare bits are cleared"
    );
    Ok(())
}

// A field at every offset in a byte, between fields of ones: it alone changes.
#[test]
fn puts_beside_its_neighbours(rt: HostRuntime) -> Result<(), Fail> {
    for before in 2..=16 {
        for width in 2..=16 {
            let plan = chain(before, width, 3)?;
            let mut image = [0xff; 8];
            let mut store = PackedStore::new(&plan, &mut image);
            assert!(rt; store.put(NodeNumber(1), 0));
            assert_eq!(rt; store.value(NodeNumber(0)), -1);
            assert_eq!(rt; store.value(NodeNumber(1)), 0);
            assert_eq!(rt; store.value(NodeNumber(2)), -1);
        }
    }
    Ok(())
}

#[test]
fn counts_what_a_short_image_holds(rt: HostRuntime) -> Result<(), Fail> {
    let plan = chain(8, 9, 3)?;
    let mut image = [0x80; 2];
    let mut store = PackedStore::new(&plan, &mut image);
    assert_eq!(rt; store.count(), 1);
    assert_eq!(rt; store.value(NodeNumber(0)), -128);
    assert_eq!(rt; store.value(NodeNumber(1)), 0);
    assert!(rt; !store.put(NodeNumber(1), 0));
    assert!(rt; !store.put(NodeNumber(0), 128));
    Ok(())
}
