//! A recorder that threads share, from opening to end.

ghost use Rattle.std.specs.Prelude.{◌≡◌};

use crate::maker::opened_of;
use crate::soak::chance::Chance;
use crate::soak::desk::{Acquiring, Desk, Heap, Held};
use crate::soak::ending::{Trouble, end_desk, put_ends};
use crate::soak::given::{Given, Lists};
use crate::soak::out::Out;
use crate::soak::plan::{Plan, Way};
use crate::soak::threads;
use crate::soak::told::put_callers;
use dfr_live::{Opened, Session, Token};
use std::alloc::{AllocGlobal, Allocator, Global};
use std::marker::Brand;
use std::sync::{Mutex, Wait};
use std::thread::Threads;

fn held<A: Allocator>(alloc: Global, tokens: Vec<Token<A>, A>) -> Vec<Mutex<Held<A>>> {
    let mut list = Vec::new(alloc);
    for token in tokens {
        let held = Held {
            token,
            notes: Vec::new(alloc),
        };
        let _pushed = list.push(Mutex::new(held)).is_ok();
    }
    list
}

fn desk_of<'h, N: Session<A>, A: Allocator + Copy>(
    alloc: Global,
    heap: Heap<'h>,
    opened: Opened<A>,
    lists: Lists<A>,
    plan: Plan,
) -> Desk<'h, N, A>
    requires { (opened.opening ≡ N.opening) × (opened.lane ≡ N.lane)
        × (opened.seats ≡ N.seats) }
{
    let Lists { samples, works } = lists;
    let (shared, source, tokens) = opened.share::<N>();
    Desk {
        heap,
        seed: plan.seed,
        rounds: plan.rounds,
        shared,
        acquiring: Mutex::new(Acquiring {
            source,
            samples,
            seen: Vec::new(alloc),
            full: 0,
        }),
        tokens: held(alloc, tokens),
        works: Mutex::new(works),
    }
}

fn named<
    N: Session<A> + Send + Sync,
    A: Allocator + Copy + Send + Sync,
    R: Wait + Threads + Sync + AllocGlobal,
>(rt: &R, out: &mut Out, heaps: (Heap, A), opened: Opened<A>, lists: Lists<A>, plan: Plan)
    requires { (opened.opening ≡ N.opening) × (opened.lane ≡ N.lane)
        × (opened.seats ≡ N.seats) }
{
    let (heap, alloc) = heaps;
    let desk = desk_of::<N, A>(rt.alloc(), heap, opened, lists, plan);
    let end = plan.threads.saturating_add(1);
    let started = match plan.way {
        Way::Orderly => threads::run(rt, &desk, 0, 1) && threads::run(rt, &desk, 1, end),
        _ => threads::run(rt, &desk, 0, end),
    };
    heap.refuse_none();
    put_callers(rt, out, &desk, started);
    let mut chance = Chance::of(plan.seed, 2000);
    let trouble = Trouble::by(&mut chance);
    let ends = end_desk(heap, alloc, desk, &mut chance, trouble);
    put_ends(out, trouble, ends);
}

pub fn run<A: Allocator + Copy + Send + Sync, R: Wait + Threads + Sync + AllocGlobal>(
    rt: &R,
    out: &mut Out,
    (heap, alloc): (Heap, A),
    given: Given<A>,
    plan: Plan,
) {
    let Given { recorder, lists } = given;
    match opened_of(alloc, recorder, plan.lane, plan.seats) {
        Some(opened) => named::<Brand, A, R>(rt, out, (heap, alloc), opened, lists, plan),
        None => {
            drop(lists);
            out.put("not opened\n");
        }
    }
}
