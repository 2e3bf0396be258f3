/// Texts that options of an import give; `None` of those that they don't.
#[derive(Clone, Copy)]
pub struct GivenTexts<'w> {
    /// The path of the new file that names lines that aren't put in, by `--rejects`.
    pub rejects: Option<&'w str>,
    /// The name of the column or the field with the key, by `--key`.
    pub key: Option<&'w str>,
    /// The name of that with the value, by `--value`.
    pub value: Option<&'w str>,
}
