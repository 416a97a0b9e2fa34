use core_word::{Home, Left, Tally, Unspent};
use fan_parts::{InnerConsumer, ReplyHome, RunName, TaskHome};

/// Closes a home, and gives what was set there and that nobody got: a callback and a proxy. A result is let go.
fn what_is_left<T: Drop, C, P>(home: Home<T, C, P>) -> (Option<C>, Option<P>) {
    let Unspent {
        outcome: _,
        callback,
        proxy,
        end: _,
    } = home.close();
    (callback, proxy)
}

/// Closes the homes of replies. A consumer of an inner core that was named there and never reached is given up.
pub fn close_reply_homes<'i, N: RunName>(homes: Vec<ReplyHome<'i, N>>) {
    let mut homes = homes;
    'homes: while let Some(home) = homes.pop() {
        let (_callback, proxy) = what_is_left(home);
        if let Some(consumer) = proxy {
            give_up(consumer);
        }
    }
    homes.destroy_empty();
}

fn give_up<'i, N: RunName>(consumer: InnerConsumer<'i, N>) {
    match consumer.give_up().leave() {
        Left::First(_receipt) => {}
        Left::Last(_leftover, husk) => husk.end(&mut Tally::new()),
    }
}

/// Closes the homes of tasks. A callback that waits there still is let go: its part stays awaited with its base.
pub fn close_task_homes<N: RunName>(homes: Vec<TaskHome<N>>) {
    let mut homes = homes;
    'homes: while let Some(home) = homes.pop() {
        let (_callback, _proxy) = what_is_left(home);
    }
    homes.destroy_empty();
}
