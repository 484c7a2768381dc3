//! Tests of both tables that readers and one writer share with no lock, `ReadTable` and the larger `MapTable`: runs of programs,
//! lookups beside the writer, and readers in threads. Of the pools of jobs: two jobs are served at the same time, and what comes
//! of jobs that seats serve.
#![tactic(auto)]

#[cfg(test)]
mod added;
#[cfg(test)]
mod chosen;
#[cfg(test)]
mod counters;
#[cfg(test)]
mod counting;
#[cfg(test)]
mod flags;
#[cfg(test)]
mod jobs;
#[cfg(test)]
mod keys;
#[cfg(test)]
mod making;
#[cfg(test)]
mod map_jobs;
#[cfg(test)]
mod map_table_runs;
#[cfg(test)]
mod names;
#[cfg(test)]
mod read_table_runs;
#[cfg(test)]
mod room;
#[cfg(test)]
mod slots;
#[cfg(test)]
mod threads;
#[cfg(test)]
mod walks;
