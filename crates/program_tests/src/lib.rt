//! Tests of the program by its public calls: what a script is read as, sources and sinks, and runs whose source or sink
//! fails. The runs of whole scripts are files, which `checks/program.sh` gives to the program.
#![tactic(auto)]

#[cfg(test)]
mod runs;
#[cfg(test)]
mod scripts;
#[cfg(test)]
mod shown;
#[cfg(test)]
mod steps;
#[cfg(test)]
mod streams;
#[cfg(test)]
mod words;
