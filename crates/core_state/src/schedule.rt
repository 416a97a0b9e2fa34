//! The acts of a core's two halves.

/// What a producer does to its core: it sets a result or a proxy, then it leaves.
#[derive(Drop)]
pub enum ProducerAct<R, K> {
    Result(R),
    Proxy(K),
    Leave,
}

/// A callback as a consumer sets it.
#[derive(Drop)]
pub struct Request<C> {
    pub callback: C,
    /// Whether it was set with the allowance to run inline.
    pub inline: bool,
}

/// What a consumer does to its core: it sets a callback or gives up, then it leaves.
#[derive(Drop)]
pub enum ConsumerAct<C> {
    Callback(Request<C>),
    GiveUp,
    Leave,
}

/// An act of one of the two halves.
#[derive(Drop)]
pub enum CoreAct<R, K, C> {
    Producer(ProducerAct<R, K>),
    Consumer(ConsumerAct<C>),
}

/// One of the two halves of a core.
#[derive(Clone, Copy, PartialEq, Eq, Debug)]
pub enum Half {
    Producer,
    Consumer,
}

/// What a producer has set.
#[derive(Drop)]
pub enum Offer<R, K> {
    Nothing,
    Result(R),
    Proxy(K),
}

/// What a consumer has set.
#[derive(Drop)]
pub enum Demand<C> {
    Nothing,
    Callback(Request<C>),
}
