//! Tests of boot and vendor boot images, over the public calls of `abt_headers` and `abt_sections`.
//!
//! | file | what it tests |
//! |---|---|
//! | `vectors.rt` | records that another program wrote |
//! | `records.rt` | these records as fields, positions of sections, the order of faults, texts |
//! | `samples.rt` | fields and parts that tests pack, and opening the result |
//! | `images.rt` | whole boot images: packed, opened, checked and unpacked |
//! | `vendor_images.rt` | the same for vendor boot images |
//! | `failing.rt` | one failing call at each position |
//! | `once.rt` | packing that reads each part once, and what is left where it fails |
//! | `changing.rt` | sources that change |
#![tactic(auto)]

#[cfg(test)]
mod changing;
#[cfg(test)]
mod failing;
#[cfg(test)]
mod images;
#[cfg(test)]
mod once;
#[cfg(test)]
mod records;
#[cfg(test)]
mod samples;
#[cfg(test)]
mod vectors;
#[cfg(test)]
mod vendor_images;
