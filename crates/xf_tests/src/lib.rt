//! Worked examples of rewritten methods (Leroy 2002, section 4), over a world of one method whose shape and code are given,
//! and of laid code. The latter are symbols that become bytes, at the limits of short jumps, with switches and with
//! handlers. Others are of live registers, over graphs of nodes, and of the registers that variables share. Of packages that
//! are written, transformed, shared and generated there are package T of `cap_tests` in both formats and one with every
//! component, with other code of their methods, custom components and handlers, and methods at the limits.
//!
//! It stands on `xf_homes`, `law_groups`, `xf_code`, `xf_layout`, `xf_live`, `xf_allot`, `cap_write`, `xf_pack`, `xf_share`
//! and `cap_gen`, whose tests these are. Wrong rewritings are shown to be refused.
#![tactic(auto)]

mod refused;

pub use refused::wrong_rewritings_are_refused;

#[cfg(test)]
mod fitting;
#[cfg(test)]
mod generated;
#[cfg(test)]
mod layouts;
#[cfg(test)]
mod limits;
#[cfg(test)]
mod live_registers;
#[cfg(test)]
mod methods;
#[cfg(test)]
mod package_t;
#[cfg(test)]
mod rewritten;
#[cfg(test)]
mod shared_methods;
#[cfg(test)]
mod shared_registers;
#[cfg(test)]
mod sharing;
#[cfg(test)]
mod transforming;
#[cfg(test)]
mod writable;
#[cfg(test)]
mod writing;
#[cfg(test)]
mod written;
