use super::tests::same;
use fan_base::{Parcel, Parcels, Refused};
use std::alloc::Global;
use std::process::Abort;
use std::thread::join;

// A value that must be spent.
struct Pledge {
    number: u32,
}

impl Pledge {
    fn spend(self) -> u32 {
        let Pledge { number } = self;
        number
    }
}

fn parcel_of<X, R: Abort>(rt: &R, alloc: Global, value: X) -> Parcel<X> {
    match Parcel::new(alloc, value) {
        Ok(parcel) => parcel,
        Err(_refused) => rt.panic("memory"),
    }
}

fn wrapped<R: Abort>(rt: &R, alloc: Global, number: u32) -> Parcel<Pledge> {
    parcel_of(rt, alloc, Pledge { number })
}

// A list to whose front parcels with the numbers from 0 on were pushed.
fn parcels_to<R: Abort>(rt: &R, alloc: Global, many: u32) -> Parcels<Pledge> {
    let mut parcels = Parcels::new();
    for number in 0..many {
        parcels.push_front(wrapped(rt, alloc, number));
    }
    parcels
}

fn opened(parcels: &mut Parcels<Pledge>) -> Option<u32> {
    let parcel = parcels.pop_front()?;
    Some(parcel.open().spend())
}

#[test]
fn a_parcel_gives_its_value(rt: HostRuntime) {
    let rt = &rt;
    same(rt, wrapped(rt, rt.alloc(), 7).open().spend(), 7);
    let _dropped = wrapped(rt, rt.alloc(), 8);
}

#[test]
fn parcels_keep_their_order(rt: HostRuntime) {
    let rt = &rt;
    let mut parcels = parcels_to(rt, rt.alloc(), 4);
    same(rt, opened(&mut parcels), Some(3));
    let mut turned = parcels.reversed();
    same(rt, opened(&mut turned), Some(0));
    same(rt, opened(&mut turned), Some(1));
}

#[test]
fn a_refused_value_comes_back(rt: HostRuntime) {
    let pledge = match Parcel::new(rt.alloc(), Pledge { number: 9 }) {
        Ok(parcel) => parcel.open(),
        Err(Refused::Memory(pledge)) => pledge,
    };
    same(&rt, pledge.spend(), 9);
}

#[test]
fn values_of_each_size_lie_in_a_block(rt: HostRuntime) {
    let rt = &rt;
    let empty = parcel_of(rt, rt.alloc(), ());
    let byte = parcel_of(rt, rt.alloc(), 7u8);
    let letter = parcel_of(rt, rt.alloc(), 'p');
    let long = parcel_of(rt, rt.alloc(), 8u128);
    let wide = parcel_of(rt, rt.alloc(), [9u64; 40]);
    empty.open();
    same(rt, (byte.open(), letter.open(), long.open()), (7, 'p', 8));
    same(rt, wide.open(), [9; 40]);
}

#[test]
fn a_long_list_is_turned_and_dropped(rt: HostRuntime) {
    let rt = &rt;
    let mut turned = parcels_to(rt, rt.alloc(), 50_000).reversed();
    same(rt, opened(&mut turned), Some(0));
    same(rt, opened(&mut turned), Some(1));
}

#[test]
fn a_parcel_crosses_threads(rt: HostRuntime) {
    let rt = &rt;
    let parcel = wrapped(rt, rt.alloc(), 5);
    let mut parcels = Parcels::new();
    parcels.push_front(wrapped(rt, rt.alloc(), 6));
    let found = join(
        rt,
        move || parcel.open().spend(),
        move || opened(&mut parcels),
    );
    same(rt, found, (5, Some(6)));
}
