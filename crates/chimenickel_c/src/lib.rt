// The C interface: include/chimenickel.h declares these functions, and bin/build-lib joins them into the library. Each
// hands its call on to the function of the same name in a crate of capi_*, by the same clauses. A crate is a library
// either for other crates or for C, and those are for other crates.
#![tactic(auto)]

mod binomial;
mod bureau;
mod campaign;
mod comma;
mod condition;
mod envelope;
mod peaks;
mod reach;
mod record;
mod sheet;
mod tail;
mod verdict;
