//! The sets of `kept_places` ask for places that they have, so each of their calls is run here, on places of several groups and words.
use kept_places::{KeptPlaces, PlaceSet};
use std::test::Fail;

#[test]
fn places_go(rt: HostRuntime) -> Result<(), Fail> {
    let mut places = KeptPlaces::new(rt.alloc(), 9000)?;
    assert_eq!(rt; places.len(), 9000);
    assert!(rt; !places.is_empty());
    places.remove(130);
    places.remove(129);
    places.remove(4096);
    assert!(rt; places.is_gone(129));
    assert!(rt; !places.is_gone(131));
    assert_eq!(rt; places.previous(131), Some(128));
    assert_eq!(rt; places.number(131), 129);
    assert_eq!(rt; places.number(9000), 8997);
    assert_eq!(rt; places.node(129), 131);
    Ok(())
}

#[test]
fn members_are_taken(rt: HostRuntime) -> Result<(), Fail> {
    let mut members = PlaceSet::new(rt.alloc(), 200)?;
    members.insert(199);
    members.insert(3);
    members.insert(64);
    members.remove(64);
    assert!(rt; members.contains(199));
    assert!(rt; !members.contains(64));
    assert_eq!(rt; members.take_least(), Some(3));
    assert_eq!(rt; members.take_greatest(), Some(199));
    assert_eq!(rt; members.take_least(), None);
    let mut all = PlaceSet::full(rt.alloc(), 70)?;
    assert_eq!(rt; all.take_greatest(), Some(69));
    Ok(())
}
