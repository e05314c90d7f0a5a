// The lines of the listings: where a volume has what, what its tagged sectors carry, and which files its register has.
use geometry::geometry::Geometry;
use geometry::third::Third;
use layout::anchor::Anchor;
use layout::end::RecordEnd;
use layout::head::RecordHead;
use layout::header::Header;
use layout::tagged::Tagged;
use names::key::Key;
use std::fmt;

/// A volume's geometry, for printing.
#[derive(Drop)]
pub struct Places(pub Geometry);

impl fmt::Display for Places {
    fn fmt<W: fmt::Write>(&self, f: &mut fmt::Formatter<W>) -> fmt::Result {
        let Geometry {
            pages,
            third,
            sectors,
        } = self.0;
        writeln!(
            f,
            "VOLUME: {pages} pages, {third} sectors a third, {sectors} sectors"
        )?;
        writeln!(
            f,
            "log        thirds from sectors {}, {} and {}",
            self.0.third_start(Third::Zero),
            self.0.third_start(Third::One),
            self.0.third_start(Third::Two)
        )?;
        writeln!(
            f,
            "pages      first copies from sector {}, second copies from sector {}",
            self.0.first_homes(),
            self.0.second_homes()
        )?;
        write!(f, "data       from sector {}", self.0.data_start())
    }
}

/// What a sector carries, in 46 columns, for printing.
#[derive(Drop)]
struct Fields(Tagged);

impl fmt::Display for Fields {
    fn fmt<W: fmt::Write>(&self, f: &mut fmt::Formatter<W>) -> fmt::Result {
        match self.0 {
            Tagged::Header(
                Header {
                    pages,
                    third,
                    sectors,
                },
            ) => write!(
                f,
                "header  pages {pages:<3} third {third:<5} sectors {sectors:<8}"
            ),
            Tagged::Anchor(Anchor { third, group }) => {
                let third = u8::from(third);
                write!(f, "anchor  third {third:<3} group {group:<22}")
            }
            Tagged::Head(head) => {
                let RecordHead { group, count, .. } = head;
                let page = head.pages[0];
                write!(
                    f,
                    "head    group {group:<3} pages {count:<5} first page {page:<5}"
                )
            }
            Tagged::End(RecordEnd { group, count }) => {
                write!(f, "end     group {group:<3} pages {count:<22}")
            }
            Tagged::Leader(leader) => {
                let length = leader.length;
                let key = Key::from_bytes(&leader.key).ok_or(fmt::Error)?;
                let name = key.name();
                let version = key.version().number;
                // The width by hand: a key is printed piece by piece, so its `Display` takes none.
                let width = 19usize.saturating_sub(name.text().len());
                write!(
                    f,
                    "leader  length {length:<5} file {name}.{version:<width$}"
                )
            }
        }
    }
}

/// A sector that carries a tag and its first bytes, for printing.
#[derive(Drop)]
pub struct Line<'a> {
    pub sector: u32,
    pub tagged: Tagged,
    pub first: &'a [u8],
}

impl fmt::Display for Line<'_> {
    fn fmt<W: fmt::Write>(&self, f: &mut fmt::Formatter<W>) -> fmt::Result {
        write!(f, "{:>6}  {}", self.sector, Fields(self.tagged))?;
        for byte in self.first {
            write!(f, " {byte:02x}")?;
        }
        Ok(())
    }
}

/// A file of the register and the page that its entry is on, for printing.
#[derive(Drop)]
pub struct FileLine {
    pub key: Key,
    pub start: u32,
    pub length: u32,
    pub page: usize,
}

impl fmt::Display for FileLine {
    fn fmt<W: fmt::Write>(&self, f: &mut fmt::Formatter<W>) -> fmt::Result {
        let name = self.key.name();
        let version = self.key.version().number;
        let start = self.start;
        let length = self.length;
        let page = self.page;
        write!(f, "{name:<20}{version:>9}{start:>8}{length:>8}{page:>6}")
    }
}
