//! What is put of a report.

ghost use Rattle.std.specs.Prelude.{IfOk};
ghost use Rattle.hsdec_core.specs.Inner.Pages.{CanBePage, IsPageOf};

use answers::{Bytes, Page, Report};
use blif_out::text_of_network;
use std::alloc::{AllocError, Global};

/// What is put of a report. Where it is a network, its text is made here.
pub fn page_of(alloc: Global, report: Report) -> Result<Page, AllocError>
    requires { CanBePage report }
    ensures { IfOk result (IsPageOf report) }
{
    match report {
        Report::Whole(text) => Ok(Page::Whole(text)),
        Report::Evidence { text, limit } => Ok(Page::Evidence { text, limit }),
        Report::Network { design, made } => {
            let text = text_of_network(alloc, &design, &made)?;
            Ok(Page::Whole(Bytes::from(text)))
        }
    }
}
