// Runs the calls of document 01's cases that are not marked P, of some that are, and of the requests', and prints what each answers; the
// file stdout beside src/ is what it must print.

#![tactic(auto)]

mod free;
mod issuing;
mod large;
mod passing;
mod ring;
mod tell;

fn main(rt: HostRuntime) {
    issuing::questions(&rt);
    issuing::sums(&rt);
    ring::settles(&rt);
    ring::sizes(&rt);
    ring::transfers(&rt);
    ring::records(&rt);
    ring::swaps(&rt);
    ring::asked_twice(&rt);
    ring::supplied(&rt);
    ring::other_order(&rt);
    passing::orders(&rt);
    passing::amounts(&rt);
    passing::rings(&rt);
    passing::limits(&rt);
    large::settlements(&rt)
}
