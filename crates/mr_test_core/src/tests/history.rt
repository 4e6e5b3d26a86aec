//! Histories of small fleets.
mod dice;
mod memory;
mod runs;
mod second_judge;
mod told;

use super::{count_is, holds, is};
use mr_history::{
    Author, Entry, History, HistoryError, OpId, Verdict, judge_history, judge_indexed,
};
use mr_phases::Side;
use mr_text::{Block, Item, ItemList, Key, KeyList, Reply, Request};
use std::alloc::Global;
use std::process::Abort;
use std::test::Fail;
