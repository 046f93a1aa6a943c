//! The commands of the program, by the arguments of the command line, and what `run` and `audit` do. A host provides
//! files, outputs and a user.
//!
//! `serve` says what an exit status means, for every command line (`Serves`); see docs/PROVED.md. `serve_run` and
//! `serve_audit` have the headline (`MeansOfRun`, `MeansOfAudit`), `serve_named` what `--names` means (`ServesPlace`).
//! Tested: help, usage and messages.
#![tactic(auto)]

mod help;
mod named;
mod options;
mod running;
mod serving;

pub use serving::serve;
