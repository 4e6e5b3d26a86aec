//! The commands of the program `migctl`, over the files, the input and the outputs that it is handed: from its arguments
//! (`run_arguments`) or its words (`run_words`) to its status. Beside them what they are made of, where it stands alone: the
//! words (`read_words`), the printing of a plan (`write_plan`), and the service of a listener's connections (`serve_node`,
//! `serve_proxy`, `SocketCarrier`).
#![tactic(auto)]

mod arguments;
mod canary;
mod commands;
mod ended;
mod fault;
mod input;
pub mod laws;
mod on_loops;
mod planned;
mod proxies;
mod run;
mod script_text;
mod services;
mod sources;
mod watch;
mod watched_words;

pub use arguments::run_arguments;
pub use input::MOST_CONFIG_BYTES;
pub use mr_printing::write_plan;
pub use mr_sockets::{SocketCarrier, serve_node, serve_proxy};
pub use mr_words::{
    CanaryValues, LoopValues, MigrationWords, NodeValues, PlanValues, Planned, PrintFault,
    ProxyValues, Span, TimelineValues, Wanted, WatchValues, WordsFault, read_words,
};
pub use run::{DONE, FAULT, NOT_ACCEPTED, WRONG_WORDS, run_words};
pub use sources::{HostFiles, LoadFault, MOST_LOADED, Sources};
