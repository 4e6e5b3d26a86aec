//! The tests of the whole fleet (`mr_world`), of configurations and plans (`mr_configs`), scripts (`mr_scripts`), and the
//! transcripts of their plays (`mr_transcripts`, over `mr_shown`), and of the commands of the program (`mr_tool`) with their
//! words and faults (`mr_words`) and the services that they begin (`mr_servers`). They are a crate of their own, so that
//! they are proved over the libraries and these aren't proved with them again.
#![tactic(auto)]

#[cfg(test)]
mod tests;
