//! Files that were compared are closed.

ghost use Rattle.std.specs.Prelude.{◌≡◌, Ok, option_map};
ghost use Rattle.play_files.specs.Closing.{AreClosed, IsClosed};
ghost use Rattle.play_files.specs.Seen.{files_seen};
ghost use Rattle.audit_files.specs.Compared.{read_seen};

use audio_parts::PartFile;
use compared_files::Comparing;
use outside_io::Media;

fn close_file<M: Media>(media: &mut M, file: Option<PartFile<M::Src, Comparing<M::Src>>>)
    ensures { IsClosed (option_map (read_seen M.Src.Source) file) (M.outside media.old) (M.outside media.new) (Ok tt) }
{
    match file {
        None => {}
        Some(
            PartFile::From {
                src,
                format: _,
                frames: _,
            },
        ) => media.close_source(src),
        Some(PartFile::To { snk, frames: _ }) => media.close_source(snk.into_source()),
    }
}

/// Closes all files, the last first. None is written, so that none fails to close.
pub fn close_compared<M: Media>(
    media: &mut M,
    mut files: Vec<Option<PartFile<M::Src, Comparing<M::Src>>>>,
)
    ensures { AreClosed (files_seen (read_seen M.Src.Source) files.items) (M.outside media.old) (M.outside media.new) (Ok tt) }
{
    while let Some(file) = files.pop() {
        close_file(media, file);
    }
    files.destroy_empty();
}
