/// A value with the number that says where it belongs, as a job's result with the job's number.
#[derive(Debug, Drop)]
pub struct Numbered<T> {
    pub number: u64,
    pub value: T,
}
