//! The host's files and its standard output as media and sink. They tell no bytes.
#![tactic(auto)]

mod host_file;
mod host_media;
mod host_sink;
mod host_source;
mod opened_files;
mod retry;

pub use host_file::HostFile;
pub use host_media::HostMedia;
pub use host_sink::HostSink;
pub use host_source::HostSource;
pub use opened_files::FileId;
