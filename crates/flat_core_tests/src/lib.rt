//! Offices of flat machines, their texts, and lines of requests, beside tables.
#![tactic(auto)]

#[cfg(test)]
mod flat_texts;
#[cfg(test)]
mod offices;
#[cfg(test)]
mod request_lines;
