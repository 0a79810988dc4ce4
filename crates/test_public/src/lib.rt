//! Only tests, through public calls: of values, damaged headers and rates; of scripts over failing streams; of a log over
//! every outcome of small runs; of covered writes, which must leave their list; and of the public items of `blob_base`,
//! `blob_memory`, `blob_faulty` and `blob_lab` that no row of `test_rows` and no worked script uses, by their paths. A
//! function that makes one call tests that it compiles and is proved.
#![tactic(auto)]

#[cfg(test)]
mod base_errors;
#[cfg(test)]
mod base_headers;
#[cfg(test)]
mod covered;
#[cfg(test)]
mod failing;
#[cfg(test)]
mod faulty;
#[cfg(test)]
mod header_values;
#[cfg(test)]
mod hostile_regions;
#[cfg(test)]
mod lab;
#[cfg(test)]
mod lab_opens;
#[cfg(test)]
mod log_explored;
#[cfg(test)]
mod log_use;
#[cfg(test)]
mod memory;
#[cfg(test)]
mod rates;
#[cfg(test)]
mod script_runs;
#[cfg(test)]
mod stream_sizes;
#[cfg(test)]
mod torn;
#[cfg(test)]
mod values;
#[cfg(test)]
mod wrong_log;
