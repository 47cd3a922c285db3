// What every layer can refuse, and what a refusal tells.
#![tactic(auto)]

ghost use Rattle.std.specs.Prelude.{◌≡◌};
ghost use Rattle.refusal.specs.Numbers.{told};
ghost use Rattle.refusal.specs.declared.faults.CertificateFault.TheVariants.{Refutation as OfRefutation, Full as FullOf};
ghost use Rattle.refusal.specs.declared.faults.RefutationFault.TheVariants.{Full as NoneFree};
ghost use Rattle.refusal.specs.declared.faults.Refusal.TheVariants.{Text, Table, Docket, Certificate, Refutation};

mod faults;

pub use faults::{
    CertificateFault, CertificateRefusal, DocketFault, Full, Layer, Refusal, RefutationFault,
    TableFault, TableRefusal, TextFault, TextRefusal, Told,
};

impl From<TextRefusal> for Refusal {
    ghost from_gives = { λ e r. r ≡ Text e };

    fn from(e: TextRefusal) -> Refusal {
        Refusal::Text(e)
    }
}

impl From<TableRefusal> for Refusal {
    ghost from_gives = { λ e r. r ≡ Table e };

    fn from(e: TableRefusal) -> Refusal {
        Refusal::Table(e)
    }
}

impl From<DocketFault> for Refusal {
    ghost from_gives = { λ e r. r ≡ Docket e };

    fn from(e: DocketFault) -> Refusal {
        Refusal::Docket(e)
    }
}

impl From<CertificateRefusal> for Refusal {
    ghost from_gives = { λ e r. r ≡ Certificate e };

    fn from(e: CertificateRefusal) -> Refusal {
        Refusal::Certificate(e)
    }
}

impl From<RefutationFault> for CertificateFault {
    ghost from_gives = { λ e r. r ≡ OfRefutation e };

    fn from(e: RefutationFault) -> CertificateFault {
        CertificateFault::Refutation(e)
    }
}

impl From<Full> for RefutationFault {
    ghost from_gives = { λ e r. r ≡ NoneFree };

    fn from(e: Full) -> RefutationFault {
        RefutationFault::Full
    }
}

impl From<Full> for CertificateFault {
    ghost from_gives = { λ e r. r ≡ FullOf };

    fn from(e: Full) -> CertificateFault {
        CertificateFault::Full
    }
}

impl From<RefutationFault> for Refusal {
    ghost from_gives = { λ e r. r ≡ Refutation e };

    fn from(e: RefutationFault) -> Refusal {
        Refusal::Refutation(e)
    }
}

impl Refusal {
    // Number, layer, offset and question number of a refusal.
    pub fn told(&self) -> Told
        ensures { result ≡ told self.now }
    {
        match self {
            Refusal::Text(TextRefusal { fault, offset }) => Told {
                number: fault.number(),
                layer: Layer::Text,
                offset: *offset,
                question: 0,
            },
            Refusal::Table(TableRefusal { fault, offset }) => Told {
                number: fault.number(),
                layer: Layer::Table,
                offset: *offset,
                question: 0,
            },
            Refusal::Docket(fault) => Told {
                number: fault.number(),
                layer: Layer::Docket,
                offset: 0,
                question: 0,
            },
            Refusal::Certificate(
                CertificateRefusal {
                    fault,
                    offset,
                    question,
                },
            ) => Told {
                number: fault.number(),
                layer: if *question == 0 {
                    Layer::Certificate
                } else {
                    Layer::Refutation
                },
                offset: *offset,
                question: *question,
            },
            Refusal::Refutation(fault) => Told {
                number: fault.number(),
                layer: Layer::Refutation,
                offset: 0,
                question: 1,
            },
        }
    }
}
