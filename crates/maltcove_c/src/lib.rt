//! The scheduler for C: `c/maltcove.h` documents its calls. Each export does one call of `queue_disc_core`, and says of the
//! scheduler behind the handle, and of what C reads, what that call says.
//!
//! C's own functions, in `c/guard.c`, stand before the exports: they answer null pointers, which no export takes.
#![tactic(auto)]

mod handle;
mod headers;
mod losses;
mod opening;
mod packets;
mod parts;
mod places;
mod records;
mod scheduler;
mod status;
mod views;
