//! What a half gets that found the other half's act: a result or a proxy, with its callback.
ghost use Rattle.std.specs.Prelude.{◌≡◌};
ghost use Rattle.core_word.specs.Count.{raised};

use crate::tally::Tally;
use fan_base::Try;
use std::marker::Model;

/// A result and the callback that it is handed to. It must be spent by `unpack`.
pub struct Fire<T, C> {
    no: u64,
    outcome: Try<T>,
    callback: C,
    inline: bool,
}

impl<T, C> Model for Fire<T, C> {
    ghost use Rattle.core_word.specs.Seen.{SeenFire};

    ghost Value = { SeenFire T C };

    ghost view = { λ f. record { no = f.no; outcome = f.outcome; callback = f.callback; inline = f.inline } };
}

impl<T, C> Fire<T, C> {
    pub(crate) fn new(no: u64, outcome: Try<T>, callback: C, inline: bool) -> Fire<T, C>
        ensures { result ≡ record { no = no; outcome = outcome; callback = callback; inline = inline } }
    {
        Fire {
            no,
            outcome,
            callback,
            inline,
        }
    }

    /// The number of the core.
    pub fn no(&self) -> u64
        ensures { result ≡ self.now.no }
    {
        self.no
    }

    /// The callback, to look at: which executor it has, say.
    pub fn callback(&self) -> &C
        ensures { result.now ≡ self.now.callback }
    {
        &self.callback
    }

    /// Whether the callback may be run inline, by whoever has this: it was set with that allowance, and the result was
    /// set later. The rule is this library's own.
    pub fn may_inline(&self) -> bool
        ensures { result ≡ self.now.inline }
    {
        self.inline
    }

    /// The core's number, the result and the callback. Raises `handed`.
    pub fn unpack(self, t: &mut Tally) -> (u64, Try<T>, C)
        ensures parts { result ≡ (self.no, self.outcome, self.callback) }
        ensures tally { t.new ≡ record t.old { handed = raised t.old.handed } }
    {
        let Fire {
            no,
            outcome,
            callback,
            inline: _,
        } = self;
        t.count_handed();
        (no, outcome, callback)
    }
}

/// A callback and the proxy to which it is passed on. It must be spent by `unpack`.
pub struct Forward<C, P> {
    no: u64,
    callback: C,
    proxy: P,
    inline: bool,
}

impl<C, P> Model for Forward<C, P> {
    ghost use Rattle.core_word.specs.Seen.{SeenForward};

    ghost Value = { SeenForward C P };

    ghost view = { λ f. record { no = f.no; callback = f.callback; proxy = f.proxy; inline = f.inline } };
}

impl<C, P> Forward<C, P> {
    pub(crate) fn new(no: u64, callback: C, proxy: P, inline: bool) -> Forward<C, P>
        ensures { result ≡ record { no = no; callback = callback; proxy = proxy; inline = inline } }
    {
        Forward {
            no,
            callback,
            proxy,
            inline,
        }
    }

    /// Whether the callback was set with the allowance to run inline, which goes along with it.
    pub fn allows(&self) -> bool
        ensures { result ≡ self.now.inline }
    {
        self.inline
    }

    /// The callback and the proxy. Raises `forwarded`.
    pub fn unpack(self, t: &mut Tally) -> (C, P)
        ensures parts { result ≡ (self.callback, self.proxy) }
        ensures tally { t.new ≡ record t.old { forwarded = raised t.old.forwarded } }
    {
        let Forward {
            no: _,
            callback,
            proxy,
            inline: _,
        } = self;
        t.count_forwarded();
        (callback, proxy)
    }
}
