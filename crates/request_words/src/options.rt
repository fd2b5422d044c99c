/// An option, which has a value.
#[derive(Clone, Copy)]
pub enum Choice {
    OfModel,
    OfUnits,
    OfLearn,
    OfWorkers,
    OfTurns,
    OfCert,
    OfRun,
    OfWitness,
}
