//! The numbers of collations, and the character set of each.
//!
//! MariaDB's `information_schema.COLLATION_CHARACTER_SET_APPLICABILITY` has its numbers, MySQL's `information_schema.COLLATIONS` those of
//! MySQL. `tests/character_sets.py` compares the tables with what servers answered.
ghost use Rattle.std.specs.Prelude.{◌≡◌};
ghost use Rattle.character_sets.specs.Collations.{set_in, collations, mariadb_collations, set_of_collation, set_of_mariadb_collation, set_of_collation_in};

use crate::character_set::CharacterSet;

/// The first and the last number of collations of one character set.
type Collations = (u16, u16, CharacterSet);

/// The collations of MySQL, and those of MariaDB with such numbers: first those of most clients, since a search begins there, then the
/// others in order.
static COLLATIONS: [Collations; 100] = [
    (45, 46, CharacterSet::Utf8mb4),
    (255, 271, CharacterSet::Utf8mb4),
    (224, 247, CharacterSet::Utf8mb4),
    (33, 33, CharacterSet::Utf8mb3),
    (8, 8, CharacterSet::Latin1),
    (1, 1, CharacterSet::Big5),
    (2, 2, CharacterSet::Latin2),
    (3, 3, CharacterSet::Dec8),
    (4, 4, CharacterSet::Cp850),
    (5, 5, CharacterSet::Latin1),
    (6, 6, CharacterSet::Hp8),
    (7, 7, CharacterSet::Koi8r),
    (9, 9, CharacterSet::Latin2),
    (10, 10, CharacterSet::Swe7),
    (11, 11, CharacterSet::Ascii),
    (12, 12, CharacterSet::Ujis),
    (13, 13, CharacterSet::Sjis),
    (14, 14, CharacterSet::Cp1251),
    (15, 15, CharacterSet::Latin1),
    (16, 16, CharacterSet::Hebrew),
    (18, 18, CharacterSet::Tis620),
    (19, 19, CharacterSet::Euckr),
    (20, 20, CharacterSet::Latin7),
    (21, 21, CharacterSet::Latin2),
    (22, 22, CharacterSet::Koi8u),
    (23, 23, CharacterSet::Cp1251),
    (24, 24, CharacterSet::Gb2312),
    (25, 25, CharacterSet::Greek),
    (26, 26, CharacterSet::Cp1250),
    (27, 27, CharacterSet::Latin2),
    (28, 28, CharacterSet::Gbk),
    (29, 29, CharacterSet::Cp1257),
    (30, 30, CharacterSet::Latin5),
    (31, 31, CharacterSet::Latin1),
    (32, 32, CharacterSet::Armscii8),
    (34, 34, CharacterSet::Cp1250),
    (35, 35, CharacterSet::Ucs2),
    (36, 36, CharacterSet::Cp866),
    (37, 37, CharacterSet::Keybcs2),
    (38, 38, CharacterSet::Macce),
    (39, 39, CharacterSet::Macroman),
    (40, 40, CharacterSet::Cp852),
    (41, 42, CharacterSet::Latin7),
    (43, 43, CharacterSet::Macce),
    (44, 44, CharacterSet::Cp1250),
    (47, 49, CharacterSet::Latin1),
    (50, 52, CharacterSet::Cp1251),
    (53, 53, CharacterSet::Macroman),
    (54, 55, CharacterSet::Utf16),
    (56, 56, CharacterSet::Utf16le),
    (57, 57, CharacterSet::Cp1256),
    (58, 59, CharacterSet::Cp1257),
    (60, 61, CharacterSet::Utf32),
    (62, 62, CharacterSet::Utf16le),
    (63, 63, CharacterSet::Binary),
    (64, 64, CharacterSet::Armscii8),
    (65, 65, CharacterSet::Ascii),
    (66, 66, CharacterSet::Cp1250),
    (67, 67, CharacterSet::Cp1256),
    (68, 68, CharacterSet::Cp866),
    (69, 69, CharacterSet::Dec8),
    (70, 70, CharacterSet::Greek),
    (71, 71, CharacterSet::Hebrew),
    (72, 72, CharacterSet::Hp8),
    (73, 73, CharacterSet::Keybcs2),
    (74, 74, CharacterSet::Koi8r),
    (75, 75, CharacterSet::Koi8u),
    (76, 76, CharacterSet::Utf8mb3),
    (77, 77, CharacterSet::Latin2),
    (78, 78, CharacterSet::Latin5),
    (79, 79, CharacterSet::Latin7),
    (80, 80, CharacterSet::Cp850),
    (81, 81, CharacterSet::Cp852),
    (82, 82, CharacterSet::Swe7),
    (83, 83, CharacterSet::Utf8mb3),
    (84, 84, CharacterSet::Big5),
    (85, 85, CharacterSet::Euckr),
    (86, 86, CharacterSet::Gb2312),
    (87, 87, CharacterSet::Gbk),
    (88, 88, CharacterSet::Sjis),
    (89, 89, CharacterSet::Tis620),
    (90, 90, CharacterSet::Ucs2),
    (91, 91, CharacterSet::Ujis),
    (92, 93, CharacterSet::Geostd8),
    (94, 94, CharacterSet::Latin1),
    (95, 96, CharacterSet::Cp932),
    (97, 98, CharacterSet::Eucjpms),
    (99, 99, CharacterSet::Cp1250),
    (101, 124, CharacterSet::Utf16),
    (128, 151, CharacterSet::Ucs2),
    (159, 159, CharacterSet::Ucs2),
    (160, 183, CharacterSet::Utf32),
    (192, 215, CharacterSet::Utf8mb3),
    (223, 223, CharacterSet::Utf8mb3),
    (248, 250, CharacterSet::Gb18030),
    (273, 275, CharacterSet::Utf8mb4),
    (277, 294, CharacterSet::Utf8mb4),
    (296, 298, CharacterSet::Utf8mb4),
    (300, 300, CharacterSet::Utf8mb4),
    (303, 323, CharacterSet::Utf8mb4),
];

/// The other collations of MariaDB, first that of most clients, then in order: some of Croatian and Myanmar, those that don't pad with spaces (1024 more than the
/// number of the one that does), and from 2048 on those of the Unicode Collation Algorithm 14.0.0.
static MARIADB_COLLATIONS: [Collations; 95] = [
    (2304, 2471, CharacterSet::Utf8mb4),
    (576, 578, CharacterSet::Utf8mb3),
    (608, 610, CharacterSet::Utf8mb4),
    (640, 642, CharacterSet::Ucs2),
    (672, 674, CharacterSet::Utf16),
    (736, 738, CharacterSet::Utf32),
    (1025, 1025, CharacterSet::Big5),
    (1027, 1027, CharacterSet::Dec8),
    (1028, 1028, CharacterSet::Cp850),
    (1030, 1030, CharacterSet::Hp8),
    (1031, 1031, CharacterSet::Koi8r),
    (1032, 1032, CharacterSet::Latin1),
    (1033, 1033, CharacterSet::Latin2),
    (1034, 1034, CharacterSet::Swe7),
    (1035, 1035, CharacterSet::Ascii),
    (1036, 1036, CharacterSet::Ujis),
    (1037, 1037, CharacterSet::Sjis),
    (1040, 1040, CharacterSet::Hebrew),
    (1042, 1042, CharacterSet::Tis620),
    (1043, 1043, CharacterSet::Euckr),
    (1046, 1046, CharacterSet::Koi8u),
    (1048, 1048, CharacterSet::Gb2312),
    (1049, 1049, CharacterSet::Greek),
    (1050, 1050, CharacterSet::Cp1250),
    (1052, 1052, CharacterSet::Gbk),
    (1054, 1054, CharacterSet::Latin5),
    (1056, 1056, CharacterSet::Armscii8),
    (1057, 1057, CharacterSet::Utf8mb3),
    (1059, 1059, CharacterSet::Ucs2),
    (1060, 1060, CharacterSet::Cp866),
    (1061, 1061, CharacterSet::Keybcs2),
    (1062, 1062, CharacterSet::Macce),
    (1063, 1063, CharacterSet::Macroman),
    (1064, 1064, CharacterSet::Cp852),
    (1065, 1065, CharacterSet::Latin7),
    (1067, 1067, CharacterSet::Macce),
    (1069, 1070, CharacterSet::Utf8mb4),
    (1071, 1071, CharacterSet::Latin1),
    (1074, 1075, CharacterSet::Cp1251),
    (1077, 1077, CharacterSet::Macroman),
    (1078, 1079, CharacterSet::Utf16),
    (1080, 1080, CharacterSet::Utf16le),
    (1081, 1081, CharacterSet::Cp1256),
    (1082, 1083, CharacterSet::Cp1257),
    (1084, 1085, CharacterSet::Utf32),
    (1086, 1086, CharacterSet::Utf16le),
    (1088, 1088, CharacterSet::Armscii8),
    (1089, 1089, CharacterSet::Ascii),
    (1090, 1090, CharacterSet::Cp1250),
    (1091, 1091, CharacterSet::Cp1256),
    (1092, 1092, CharacterSet::Cp866),
    (1093, 1093, CharacterSet::Dec8),
    (1094, 1094, CharacterSet::Greek),
    (1095, 1095, CharacterSet::Hebrew),
    (1096, 1096, CharacterSet::Hp8),
    (1097, 1097, CharacterSet::Keybcs2),
    (1098, 1098, CharacterSet::Koi8r),
    (1099, 1099, CharacterSet::Koi8u),
    (1101, 1101, CharacterSet::Latin2),
    (1102, 1102, CharacterSet::Latin5),
    (1103, 1103, CharacterSet::Latin7),
    (1104, 1104, CharacterSet::Cp850),
    (1105, 1105, CharacterSet::Cp852),
    (1106, 1106, CharacterSet::Swe7),
    (1107, 1107, CharacterSet::Utf8mb3),
    (1108, 1108, CharacterSet::Big5),
    (1109, 1109, CharacterSet::Euckr),
    (1110, 1110, CharacterSet::Gb2312),
    (1111, 1111, CharacterSet::Gbk),
    (1112, 1112, CharacterSet::Sjis),
    (1113, 1113, CharacterSet::Tis620),
    (1114, 1114, CharacterSet::Ucs2),
    (1115, 1115, CharacterSet::Ujis),
    (1116, 1117, CharacterSet::Geostd8),
    (1119, 1120, CharacterSet::Cp932),
    (1121, 1122, CharacterSet::Eucjpms),
    (1125, 1125, CharacterSet::Utf16),
    (1147, 1147, CharacterSet::Utf16),
    (1152, 1152, CharacterSet::Ucs2),
    (1174, 1174, CharacterSet::Ucs2),
    (1184, 1184, CharacterSet::Utf32),
    (1206, 1206, CharacterSet::Utf32),
    (1216, 1216, CharacterSet::Utf8mb3),
    (1238, 1238, CharacterSet::Utf8mb3),
    (1248, 1248, CharacterSet::Utf8mb4),
    (1270, 1270, CharacterSet::Utf8mb4),
    (2048, 2215, CharacterSet::Utf8mb3),
    (2232, 2247, CharacterSet::Utf8mb3),
    (2488, 2503, CharacterSet::Utf8mb4),
    (2560, 2727, CharacterSet::Ucs2),
    (2744, 2759, CharacterSet::Ucs2),
    (2816, 2983, CharacterSet::Utf16),
    (3000, 3015, CharacterSet::Utf16),
    (3072, 3239, CharacterSet::Utf32),
    (3256, 3271, CharacterSet::Utf32),
];

/// The greatest number in [`COLLATIONS`].
const LAST_COLLATION: u16 = 323;

#[tactic(auto, unfolding(crate::specs::Collations::collations))]
fn collations() -> &'static [Collations]
    ensures { result.now ≡ collations }
{
    &COLLATIONS
}

#[tactic(auto, unfolding(crate::specs::Collations::mariadb_collations))]
fn mariadb_collations() -> &'static [Collations]
    ensures { result.now ≡ mariadb_collations }
{
    &MARIADB_COLLATIONS
}

fn set_in(table: &[Collations], number: u16) -> Option<CharacterSet>
    ensures { result ≡ set_in table.now number }
{
    let found = table
        .iter()
        .find(|numbers| numbers.0 <= number && number <= numbers.1)?;
    Some(found.2)
}

impl CharacterSet {
    /// The character set of a collation, by its number in `information_schema.COLLATIONS`: of MySQL's collations, and of MariaDB's up
    /// to 323, where no number has another character set in the other server. `None` for any other number. MySQL leaves 1024 to
    /// 2047 to collations that users define.
    #[tactic(auto, using(crate::proofs::CollationNumbers::none_beyond))]
    pub fn from_collation(number: u16) -> Option<CharacterSet>
        ensures { result ≡ set_of_collation number }
    {
        if number > LAST_COLLATION {
            return None;
        }
        set_in(collations(), number)
    }

    /// The character set of a collation of a MariaDB server, by its number: as [`CharacterSet::from_collation`], and for
    /// MariaDB's own numbers of 576 to 738, 1025 to 1270, and from 2048 on.
    pub fn from_mariadb_collation(number: u16) -> Option<CharacterSet>
        ensures { result ≡ set_of_mariadb_collation number }
    {
        match CharacterSet::from_collation(number) {
            Some(set) => Some(set),
            None => set_in(mariadb_collations(), number),
        }
    }

    /// The character set of a collation by the server that numbers it: [`CharacterSet::from_mariadb_collation`] of a MariaDB
    /// server, else [`CharacterSet::from_collation`].
    pub fn from_collation_in(is_mariadb: bool, number: u16) -> Option<CharacterSet>
        ensures { result ≡ set_of_collation_in is_mariadb number }
    {
        if is_mariadb {
            CharacterSet::from_mariadb_collation(number)
        } else {
            CharacterSet::from_collation(number)
        }
    }
}
