//! Tests of bytes and what they spell, by public calls. They are of varints (`cs_varint`), values and records (`cs_value`, `cs_record`),
//! order by words (`cs_order::digits`, `cs_order`), lines (`cs_lines`), and requests and answers (`cs_wire`). Changesets and values as text
//! (`cs_text`), and faults of records with their offsets, are rows of `bench/check_tools.sh`.
#![tactic(auto)]

#[cfg(test)]
mod digits;
#[cfg(test)]
mod lines;
#[cfg(test)]
mod order;
#[cfg(test)]
mod record;
#[cfg(test)]
mod value;
#[cfg(test)]
mod varint;
#[cfg(test)]
mod wire;

fn main() {}
