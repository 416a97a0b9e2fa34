//! Replies that are made in any order, and go out in the order of their places.
//!
//! An [`Orderer`] holds a reply until those of all earlier places have gone out. Contracts see the place that comes next
//! (`next_of`) and the list of what is held, each reply behind its place (`held_of`, specs/Orders.antt):
//!
//! ```text
//!   put(place, reply)    the list has one more          next()    where the list has the next place: one less,
//!                        (or memory was refused)                  and the place behind it is the next
//! ```
//!
//! So whatever a caller counts over replies, what it put is what came out and what is held.
#![tactic(auto)]

pub use orderer::Orderer;

mod orderer;

#[cfg(test)]
mod tests {
    use super::Orderer;
    use std::test::Fail;

    #[test]
    fn replies_go_out_in_the_order_of_places(rt: HostRuntime) -> Result<(), Fail> {
        let mut orderer = Orderer::new(rt.alloc(), 0);
        orderer.put(1, 'x')?;
        assert_eq!(rt; orderer.next(), None);
        orderer.put(0, 'y')?;
        assert!(rt; orderer.holds(1));
        assert_eq!(rt; orderer.len(), 2);
        assert_eq!(rt; orderer.next(), Some('y'));
        assert_eq!(rt; orderer.next_place(), 1);
        assert_eq!(rt; orderer.next(), Some('x'));
        assert_eq!(rt; orderer.next(), None);
        assert!(rt; !orderer.holds(1));
        assert!(rt; orderer.is_empty());
        Ok(())
    }
}
