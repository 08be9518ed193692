//! Files are closed.

ghost use Rattle.std.specs.Prelude.{◌≡◌, option_map};
ghost use Rattle.play_files.specs.Closing.{AreClosed, IsClosed, joined};
ghost use Rattle.play_files.specs.Seen.{file_seen, files_seen};

use audio_parts::PartFile;
use outside_io::{Failed, Media};

/// What two closings come to.
fn joined(first: Result<(), Failed>, then: Result<(), Failed>) -> Result<(), Failed>
    ensures { result ≡ joined first then }
{
    first?;
    then
}

fn close_file<M: Media>(media: &mut M, file: Option<PartFile<M::Src, M::Snk>>) -> Result<(), Failed>
    ensures { IsClosed (option_map (file_seen M.Src.Source M.Snk.Sink) file) (M.outside media.old) (M.outside media.new) result }
{
    match file {
        None => Ok(()),
        Some(
            PartFile::From {
                src,
                format: _,
                frames: _,
            },
        ) => {
            media.close_source(src);
            Ok(())
        }
        Some(PartFile::To { snk, frames: _ }) => media.close_sink(snk),
    }
}

/// Closes all files, the last first. One that fails to close doesn't keep the others from it.
pub fn close_files<M: Media>(
    media: &mut M,
    mut files: Vec<Option<PartFile<M::Src, M::Snk>>>,
) -> Result<(), Failed>
    ensures { AreClosed (files_seen (file_seen M.Src.Source M.Snk.Sink) files.items) (M.outside media.old) (M.outside media.new) result }
{
    let mut closed = Ok(());
    while let Some(file) = files.pop() {
        closed = joined(closed, close_file(media, file));
    }
    files.destroy_empty();
    closed
}
