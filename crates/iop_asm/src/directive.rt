/// A statement that is no instruction and no label, by the word that it begins with.
#[derive(Clone, Copy, Debug, PartialEq, Eq)]
pub(crate) enum Directive {
    /// `.name W`: the module's name.
    Name,
    /// `.version A B`: its major and its minor version.
    Version,
    /// `.entry L`: where it is entered.
    Entry,
    /// `.bss N`: how many zero bytes follow the data.
    Bss,
    /// `.text`: what follows is text.
    Text,
    /// `.data`: what follows is data.
    Data,
    /// `.import W A B`: an import table begins, with its library's name and version.
    Import,
    /// `.fn L N`: the stub of function N, with a label.
    Function,
    /// `.endi`: the import table ends.
    EndImport,
    /// `.export W A B`: an export table begins, with its library's name and version.
    Export,
    /// `.ende`: the export table ends.
    EndExport,
    /// `.word V,V`: words, each a number or a label's address.
    Word,
    /// `.asciz "S"`: a string, a zero byte, and zeros to a multiple of 4.
    String,
}
