//! The transforms, for C and for all that calls C: include/perdoaze.h declares what is exported here.
#![tactic(auto)]

mod exports;
mod pipe_exports;
