//! The fields of recordings, and the chunks that hold them.
#![tactic(auto)]

mod fault;
mod laws;
mod packet_fields;
mod reading;
mod writing;

pub use fault::FieldFault;
pub use laws::{
    bounded_read_back, bytes_read_back, chunks_read_back, configs_read_back, counts_read_back,
    few_read_back, flags_read_back, incarnations_read_back, labels_read_back,
    maybe_labels_read_back, packets_read_back, places_read_back, records_read_back,
    texts_read_back, words_read_back,
};
pub use reading::FieldReader;
pub use writing::{
    put_chunk, put_config, put_count, put_flag, put_label, put_maybe_label, put_place, put_records,
    put_text, put_told, put_word,
};
