//! Reading what was written.
ghost use Rattle.std.specs.Prelude.{◌<◌, ◌-◌, ◌^◌, length};
ghost use Rattle.cert_text.specs.Certs.{KeepsForm};
ghost use Rattle.cert_text.specs.Spelling.{spelling};
ghost use Rattle.cert_text.specs.Texts.{found_by};
ghost use Rattle.lp_base.specs.Answers.{Gives};

use crate::write_cert;
use cert_text::{Cert, CertFault, read_cert};
use std::alloc::Global;

/// Writes a certificate and reads the text: this gives the same certificate, unless memory is short.
pub fn write_and_read(alloc: Global, cert: &Cert) -> Result<Cert, CertFault>
    requires form { KeepsForm cert.now }
    requires room { length (spelling cert.now) < 2 ^ 32 - 1 }
    ensures { Gives found_by cert.now result }
{
    let text = write_cert(alloc, cert)?;
    read_cert(alloc, &text)
}
