//! The lines of watchers.

ghost use Rattle.std.specs.Prelude.{◌≡◌, ◌++◌, IfOk, OnOk};
ghost use Rattle.ra_top.specs.Commands.Told.{first_lines, lines_of};

use std::alloc::{AllocError, Global};
use target_base::Bytes;
use watchers::Watcher;

/// Appends the lines of a watcher.
fn put_lines<W: Watcher>(alloc: Global, watcher: &W, out: &mut Bytes) -> Result<(), AllocError>
    ensures { OnOk result (out.new ≡ out.old ++ first_lines (W.text watcher.now) (W.count watcher.now)) }
{
    'lines: for k in 0..watcher.lines() {
        let line = watcher.line(alloc, k)?;
        out.extend(line.as_slice())?;
        out.extend(b"\n")?;
    }
    Ok(())
}

/// The lines of watchers, one after the other, each with its newline.
pub(crate) fn lines_of<W: Watcher>(alloc: Global, watchers: &[W]) -> Result<Bytes, AllocError>
    ensures { IfOk result (λ text. text ≡ lines_of W.count W.text watchers.now) }
{
    let mut out = Bytes::new(alloc);
    'watchers: for watcher in watchers {
        put_lines(alloc, watcher, &mut out)?;
    }
    Ok(out)
}
