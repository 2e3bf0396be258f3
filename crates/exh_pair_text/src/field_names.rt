/// The names of a key and a value.
#[derive(Clone, Copy, Debug)]
pub struct FieldNames<'n> {
    pub key: &'n str,
    pub value: &'n str,
}
