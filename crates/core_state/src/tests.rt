ghost use Rattle.std.specs.Prelude.{◌≡◌};
ghost use Rattle.core_state.specs.Schedule.{state_from};

use crate::{Act, Demand, Half, Offer, Request, State, code, from_code, next};
use std::process::Abort;

const STATES: [State; 7] = [
    State::Start,
    State::OnlyResult,
    State::OnlyCallback,
    State::Proxy,
    State::Done,
    State::Empty,
    State::OnlyCallbackAllowInline,
];

// The merges of two acts of the producer with two acts of the consumer.
const MERGES: [[Half; 4]; 6] = [
    [
        Half::Producer,
        Half::Producer,
        Half::Consumer,
        Half::Consumer,
    ],
    [
        Half::Producer,
        Half::Consumer,
        Half::Producer,
        Half::Consumer,
    ],
    [
        Half::Producer,
        Half::Consumer,
        Half::Consumer,
        Half::Producer,
    ],
    [
        Half::Consumer,
        Half::Producer,
        Half::Producer,
        Half::Consumer,
    ],
    [
        Half::Consumer,
        Half::Producer,
        Half::Consumer,
        Half::Producer,
    ],
    [
        Half::Consumer,
        Half::Consumer,
        Half::Producer,
        Half::Producer,
    ],
];

// The state by the definition: what the halves have set.
fn by_definition(offer: &Offer<(), ()>, demand: &Demand<()>) -> State
    ensures { result ≡ state_from offer.now demand.now }
{
    match (offer, demand) {
        (Offer::Nothing, Demand::Nothing) => State::Start,
        (Offer::Nothing, Demand::Callback(Request { inline: false, .. })) => State::OnlyCallback,
        (Offer::Nothing, Demand::Callback(Request { inline: true, .. })) => {
            State::OnlyCallbackAllowInline
        }
        (Offer::Result(()), Demand::Nothing) => State::OnlyResult,
        (Offer::Result(()), Demand::Callback(_)) => State::Done,
        (Offer::Proxy(()), Demand::Nothing) => State::Proxy,
        (Offer::Proxy(()), Demand::Callback(_)) => State::Empty,
    }
}

// Goes through a schedule, and compares after each act, so at each of its prefixes. The consumer sets a callback, with the
// allowance to run inline or without it, or gives up.
fn walk(rt: &impl Abort, is_proxy: bool, chosen: Option<bool>, order: [Half; 4]) {
    let mut state = State::Start;
    let mut offer = Offer::Nothing;
    let mut demand = Demand::Nothing;
    let mut has_acted = false;
    let mut has_chosen = false;
    for half in order {
        match half {
            Half::Producer if !has_acted => {
                let act = if is_proxy {
                    Act::SetProxy
                } else {
                    Act::SetResult
                };
                offer = if is_proxy {
                    Offer::Proxy(())
                } else {
                    Offer::Result(())
                };
                has_acted = true;
                state = next(state, act).expect(rt, "the table has a row");
            }
            Half::Consumer if !has_chosen => {
                has_chosen = true;
                if let Some(inline) = chosen {
                    let act = if inline {
                        Act::SetCallbackInline
                    } else {
                        Act::SetCallback
                    };
                    demand = Demand::Callback(Request {
                        callback: (),
                        inline,
                    });
                    state = next(state, act).expect(rt, "the table has a row");
                }
            }
            // A leave.
            _ => {}
        }
        assert_eq!(rt; state, by_definition(&offer, &demand));
    }
}

#[test]
fn every_lawful_schedule_walks_to_its_state(rt: HostRuntime) {
    for order in MERGES {
        for chosen in [None, Some(false), Some(true)] {
            walk(&rt, false, chosen, order);
            walk(&rt, true, chosen, order);
        }
    }
}

#[test]
fn the_table_has_these_twenty_eight_entries(rt: HostRuntime) {
    let entries = [
        [
            Some(State::OnlyResult),
            Some(State::Proxy),
            Some(State::OnlyCallback),
            Some(State::OnlyCallbackAllowInline),
        ],
        [None, None, Some(State::Done), Some(State::Done)],
        [Some(State::Done), Some(State::Empty), None, None],
        [None, None, Some(State::Empty), Some(State::Empty)],
        [None, None, None, None],
        [None, None, None, None],
        [Some(State::Done), Some(State::Empty), None, None],
    ];
    let mut n = 0;
    for (state, row) in STATES.into_iter().zip(entries) {
        let [result, proxy, callback, inline] = row;
        assert_eq!(rt; next(state, Act::SetResult), result);
        assert_eq!(rt; next(state, Act::SetProxy), proxy);
        assert_eq!(rt; next(state, Act::SetCallback), callback);
        assert_eq!(rt; next(state, Act::SetCallbackInline), inline);
        assert_eq!(rt; code(state), n);
        assert_eq!(rt; from_code(n), Some(state));
        n = u64::wrapping_add(n, 1);
    }
    assert_eq!(rt; n, 7);
    assert_eq!(rt; from_code(6), Some(State::OnlyCallbackAllowInline));
    assert_eq!(rt; from_code(7), None);
}
